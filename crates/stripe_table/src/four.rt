//! A list of at most four, in place: a descriptor has four places, so what an event runs and what
//! a close gives back never needs the heap.
ghost use Rattle.std.specs.Prelude.{◌≡◌, ◌<◌, ◌≤◌, List, [], ◌∷◌, ◌++◌, length, MatchOption, Some, None, slice_get, IfSome, IfNone, take, drop};

use std::marker::Model;
use std::mem;

/// At most four values in their order.
#[derive(Drop)]
pub struct Four<X> {
    first: Option<X>,
    second: Option<X>,
    third: Option<X>,
    fourth: Option<X>,
}

impl<X> Model for Four<X> {
    ghost use Rattle.std.specs.Prelude.{List};
    ghost use Rattle.stripe_table.specs.Fours.{listed, IsPacked};

    ghost Value = { List X };

    ghost view = { λ f. listed f.first f.second f.third f.fourth };

    ghost invariant = { λ f. IsPacked f.first f.second f.third f.fourth };
}

impl<X: Drop> Four<X> {
    /// No value.
    pub fn new() -> Four<X>
        ensures { result ≡ [] }
    {
        Four {
            first: None,
            second: None,
            third: None,
            fourth: None,
        }
    }

    /// How many values are kept, at most four.
    pub fn len(&self) -> usize
        ensures len { result ≡ length self.now }
        ensures most { length self.now ≤ 4 }
    {
        if self.first.is_none() {
            0
        } else if self.second.is_none() {
            1
        } else if self.third.is_none() {
            2
        } else if self.fourth.is_none() {
            3
        } else {
            4
        }
    }

    /// The value at a place, counted from 0.
    pub fn get(&self, index: usize) -> Option<&X>
        ensures there { IfSome result (λ x. slice_get self.now index ≡ Some x.now) }
        ensures past { IfNone result (length self.now ≤ index) }
    {
        match index {
            0 => self.first.as_ref(),
            1 => self.second.as_ref(),
            2 => self.third.as_ref(),
            3 => self.fourth.as_ref(),
            _ => None,
        }
    }

    /// Puts a value after the others. There must be room for it.
    pub fn push(&mut self, x: X)
        requires { length self.old < 4 }
        ensures { self.new ≡ self.old ++ x ∷ [] }
    {
        if self.first.is_none() {
            self.first = Some(x);
        } else if self.second.is_none() {
            self.second = Some(x);
        } else if self.third.is_none() {
            self.third = Some(x);
        } else {
            self.fourth = Some(x);
        }
    }

    /// Takes all values out.
    pub fn take(&mut self) -> Four<X>
        ensures list { result ≡ self.old }
        ensures empty { self.new ≡ [] }
        ensures most { length self.old ≤ 4 }
    {
        let _count = self.len();
        mem::replace(self, Four::new())
    }

    /// Takes the first value out. The others move up, each where there is one.
    pub fn pop_first(&mut self) -> Option<X>
        ensures { MatchOption result ((self.old ≡ []) × (self.new ≡ [])) (λ x. self.old ≡ x ∷ self.new) }
    {
        let first = self.first.take();
        if self.second.is_none() {
            return first;
        }
        self.first = self.second.take();
        if self.third.is_none() {
            return first;
        }
        self.second = self.third.take();
        if self.fourth.is_none() {
            return first;
        }
        self.third = self.fourth.take();
        first
    }
}
