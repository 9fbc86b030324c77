// Fields one after another.
ghost use Rattle.std.specs.Prelude.{◌≡◌, ◌+◌, ◌++◌, ◌<◌, ◌≤◌, length};
ghost use Rattle.spec_bits.specs.Fields.{field_bits, fields_bits, FieldFits, FieldsFit};
ghost use Rattle.bit_strings.specs.BitText.{Appends};
ghost use Rattle.param_sets.specs.Pieces.{Grows};

use bit_strings::{BitBuf, Full};
use spec_bits::Field;

fn put_field(out: &mut BitBuf, field: Field) -> Result<(), Full>
    requires { FieldFits field }
    ensures { Appends out.old out.new (field_bits field) result }
{
    match field {
        Field::U(n, value) => out.put(n, u64::from(value)),
        Field::Ue(value) => out.ue(value),
        Field::Se(value) => out.se(value),
    }
}

// Fields, or on `Full` maybe some of them.
pub(crate) fn put_fields(out: &mut BitBuf, fields: &[Field]) -> Result<(), Full>
    requires { FieldsFit fields.now }
    ensures { Grows out.old out.new (fields_bits fields.now) result }
{
    // Its contract says that what is held fits the room.
    let _held = out.len();
    for field in fields {
        put_field(out, *field)?;
    }
    Ok(())
}
