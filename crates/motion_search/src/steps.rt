// A count that only rises.
ghost use Rattle.std.specs.Prelude.{◌≡◌, ℕ, ◌+◌, ◌<◌};

use std::marker::Model;
use std::sync::ledger::{Blank, Book, Ledger, Share};

/// How many vectors were compared. It takes no bytes when the program runs, and only `tick` and `rise` change it.
#[derive(Drop)]
pub struct Steps<L: Ledger> {
    book: Book<L>,
    share: Share<L>,
}

impl<L: Ledger> Model for Steps<L> {
    ghost Value = { ℕ };

    ghost view = { λ s. s.book.total };

    ghost invariant = { λ s. 0 < s.share.parts };
}

impl<L: Ledger> Steps<L> {
    /// Counts one difference of a block.
    #[inline(always)]
    pub fn tick(&mut self)
        ensures { self.new ≡ self.old + 1 }
    {
        self.book.add(&mut self.share, 1);
    }

    /// Counts several at once.
    #[inline(always)]
    pub fn rise(&mut self, count: u32)
        ensures { self.new ≡ self.old + count }
    {
        self.book.add(&mut self.share, count as u64);
    }
}

/// A count that begins at 0. Who counts nothing makes it from `Blank::new(1)`.
pub fn begun<L: Ledger>(blank: Blank) -> Steps<L>
    requires name { blank.name ≡ L.name }
    requires parts { blank.parts ≡ L.parts }
    requires some { 0 < blank.parts }
    ensures { result ≡ 0 }
{
    let (book, share) = blank.open();
    Steps { book, share }
}
