//! Binarisations of numbers, appended to bins.

ghost use Rattle.std.specs.Prelude.{◌≡◌, ℕ, ◌+◌, ◌<◌, ◌≤◌, ◌^◌, ◌++◌};
ghost use Rattle.arrayvec.specs.ArrayVec.{array_vec_len};
ghost use Rattle.spec_syntax.specs.Syntax.{flag_string};
ghost use Rattle.spec_syntax.specs.Numbers.{ones_string, number_string, golomb_string};

use arrayvec::ArrayVec;
use enc_tables::BYPASS;
use spec_syntax::Bin;

/// A single bin.
#[tactic(auto, unfolding(spec_syntax::specs::Syntax::flag_string))]
pub(crate) fn one(ctx: u16, bit: bool) -> ArrayVec<Bin, 48>
    ensures items { result.items ≡ flag_string ctx bit }
    ensures len { array_vec_len result ≡ 1 }
{
    let mut bins = ArrayVec::new();
    bins.push(Bin { ctx, bit });
    bins
}

fn power(k: u16) -> u32
    requires { k ≤ 16 }
    ensures { result ≡ 2 ^ k }
{
    1 << k
}

/// Truncated unary (clause 9.3.2.2), each bin of one context.
pub(crate) fn push_ones(bins: &mut ArrayVec<Bin, 48>, ctx: u16, most: u16, value: u16)
    requires { array_vec_len bins.old + most ≤ 48 }
    ensures items { bins.new.items ≡ bins.old.items ++ ones_string ctx most value }
    ensures len { array_vec_len bins.new ≤ array_vec_len bins.old + most }
{
    let count = value.min(most);
    let mut k = 0;
    while k < count {
        bins.push(Bin { ctx, bit: true });
        k += 1;
    }
    if value < most {
        bins.push(Bin { ctx, bit: false });
    }
}

fn push_number(bins: &mut ArrayVec<Bin, 48>, count: u16, value: u32)
    requires below { value < 2 ^ count }
    requires small { count ≤ 16 }
    requires room { array_vec_len bins.old + count ≤ 48 }
    ensures items { bins.new.items ≡ bins.old.items ++ number_string count value }
    ensures len { array_vec_len bins.new ≡ array_vec_len bins.old + count }
{
    let mut left = count;
    let mut rest = value;
    while left > 0 {
        left -= 1;
        let half = power(left);
        if rest < half {
            bins.push(Bin {
                ctx: BYPASS,
                bit: false,
            });
        } else {
            bins.push(Bin {
                ctx: BYPASS,
                bit: true,
            });
            rest -= half;
        }
    }
}

// Exp-Golomb of an order by bypass, of at most 13 ones (the suffix of clause 9.3.2.3).
fn push_golomb_from(bins: &mut ArrayVec<Bin, 48>, most: u16, order: u16, value: u32)
    requires below { value + 2 ^ order < 2 ^ (order + most) }
    requires small { order + most ≤ 15 }
    requires room { array_vec_len bins.old + most + order + most ≤ 48 }
    ensures items { bins.new.items ≡ bins.old.items ++ golomb_string most order value }
    ensures len { array_vec_len bins.new ≤ array_vec_len bins.old + most + order + most }
{
    let mut k: u16 = order;
    let mut rest = value;
    while rest >= power(k) {
        bins.push(Bin {
            ctx: BYPASS,
            bit: true,
        });
        rest -= power(k);
        k += 1;
    }
    bins.push(Bin {
        ctx: BYPASS,
        bit: false,
    });
    push_number(bins, k, rest);
}

/// Exp-Golomb of order 0.
pub(crate) fn push_golomb(bins: &mut ArrayVec<Bin, 48>, value: u32)
    requires below { value ≤ 8176 }
    requires room { array_vec_len bins.old ≤ 20 }
    ensures { bins.new.items ≡ bins.old.items ++ golomb_string 13 0 value }
{
    push_golomb_from(bins, 13, 0, value);
}

/// Exp-Golomb of order 3.
pub(crate) fn push_golomb3(bins: &mut ArrayVec<Bin, 48>, value: u32)
    requires below { value ≤ 32759 }
    requires room { array_vec_len bins.old ≤ 9 }
    ensures items { bins.new.items ≡ bins.old.items ++ golomb_string 12 3 value }
    ensures len { array_vec_len bins.new ≤ 47 }
{
    push_golomb_from(bins, 12, 3, value);
}
