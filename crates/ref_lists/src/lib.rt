//! The reference pictures that an encoder holds, and the lists by which P and B pictures name them (ITU-T H.264, clauses 8.2.4 and
//! 8.2.5.3).
#![tactic(auto)]

ghost use Rattle.std.specs.Prelude.{ℕ, List, ◌≡◌, None, Some, length};
ghost use Rattle.enc_tables.specs.declared.SliceKind.{SliceKind};
ghost use Rattle.spec_headers.specs.declared.heads.SliceHead.{SliceHead};
ghost use Rattle.spec_lists.specs.References.{Reference as Shown};
ghost use Rattle.spec_lists.specs.Lists.{lists_of};
ghost use Rattle.ref_lists.specs.Entries.{next_number};
ghost use Rattle.ref_lists.specs.Named.{lists_at, HasEntries};

mod held;
mod naming;
mod store;
#[cfg(test)]
mod tests;

pub use held::Reference;
pub use naming::Lists;
pub use store::RefStore;

/// The lists of a picture are those that a decoder makes of a slice's header that tells the picture's kind, numbers and lengths of lists,
/// and has no command.
pub fn lists_are_the_decoders()
    ensures { (kind : SliceKind) (poc : ℕ) (held : List Shown) (h : SliceHead) → h.kind ≡ kind → h.poc ≡ poc → h.frame_num ≡ next_number held → h.moved ≡ None → h.refs0 ≡ length (lists_at kind poc held).list0 → h.refs1 ≡ length (lists_at kind poc held).list1 → HasEntries kind (lists_at kind poc held) → lists_of h held ≡ Some (lists_at kind poc held) }
{}
