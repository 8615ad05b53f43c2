// A list by value.
ghost use Rattle.std.specs.Prelude.{◌≡◌, [], ◌∷◌, ◌++◌, ◌+◌, ◌<◌, ◌≤◌, cond, length, set};
ghost use Rattle.lists.specs.Areas.{pad};
ghost use Rattle.lists.specs.Scans.{max_kept};

use std::marker::Model;

// How many numbers a list by value has room for.
pub const MAX_KEPT: usize = 512;

// Where a test passes, one number more in a lent list of which the first n places are in use; answers how many are then.
pub fn put_if(b: bool, items: &mut [u32], n: usize, v: u32) -> usize
    requires { n < length items.old }
    ensures list { items.new ≡ cond b (set items.old n v) items.old }
    ensures count { result ≡ cond b (n + 1) n }
{
    if !b {
        return n;
    }
    items[n] = v;
    n + 1
}

// A list of at most MAX_KEPT numbers: `count` of them, then zeros.
#[derive(Clone, Copy)]
pub struct Kept {
    items: [u32; MAX_KEPT],
    count: usize,
}

impl Model for Kept {
    ghost use Rattle.std.specs.Prelude.{List, ℕ, ◌≡◌, ◌≤◌, length, take};
    ghost use Rattle.lists.specs.Areas.{pad};
    ghost use Rattle.lists.specs.Scans.{max_kept};
    ghost use Rattle.lists.specs.Padded.{length-area};
    ghost use Rattle.std.proofs.Common.{sym};

    ghost Value = { List ℕ };

    ghost view = { λ k. take k.count k.items };

    ghost invariant = { λ k. (k.count ≤ max_kept) × (k.items ≡ pad max_kept (take k.count k.items)) };

    ghost inverse = { λ l. record { items = pad max_kept l; count = length l } };

    ghost inverse_ok = { λ k h i. record { items = sym h.1 i; count = length-area max_kept k.count k.items h.0 h.1 i } };
}

impl Kept {
    // No numbers.
    pub fn new() -> Kept
        ensures { result ≡ [] }
    {
        Kept {
            items: crate::zeros(),
            count: 0,
        }
    }

    // One number more.
    pub fn push(&mut self, v: u32)
        requires { length self.old < max_kept }
        ensures { self.new ≡ self.old ++ v ∷ [] }
    {
        self.items[self.count] = v;
        self.count += 1;
    }

    // One number more where a test passes.
    pub fn push_if(&mut self, b: bool, v: u32)
        requires { length self.old < max_kept }
        ensures { self.new ≡ cond b (self.old ++ v ∷ []) self.old }
    {
        if b {
            self.push(v);
        }
    }

    // How many there are.
    pub fn len(&self) -> usize
        ensures value { result ≡ length self.now }
        ensures room { result ≤ max_kept }
    {
        self.count
    }

    // The numbers.
    pub fn as_slice(&self) -> &[u32]
        ensures { result.now ≡ self.now }
    {
        &self.items[..self.count]
    }

    // The numbers, and zeros after them.
    pub fn into_array(self) -> [u32; MAX_KEPT]
        ensures { result ≡ pad max_kept self }
    {
        let Kept { items, count: _ } = self;
        items
    }
}
