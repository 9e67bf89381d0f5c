//! `AsideList`. A clause sees it as the list of its pairs of number and value.
ghost use Rattle.std.specs.Prelude.{◌≡◌, ◌+◌, ◌-◌, ◌%◌, ◌^◌, ◌<◌, ◌≤◌, ◌↔◌, IsTrue, IsSomeAnd, [], ◌∷◌, ◌++◌, length, drop, slice_get, option_map};

use std::marker::Model;
use std::mem;

// How many values a list has room for. One far packet may be a stray one, and so may two or three; five in
// a row are a sender that began anew, so the fifth needs no place here.
const MOST: u8 = 4;

/// A value and its number.
#[derive(Drop)]
struct Aside<T> {
    seq: u16,
    value: T,
}

/// Up to four values, each with its 16-bit sequence number, in the order in which they came.
#[derive(Drop)]
pub struct AsideList<T> {
    first: Option<Aside<T>>,
    second: Option<Aside<T>>,
    third: Option<Aside<T>>,
    fourth: Option<Aside<T>>,
}

impl<T> Model for AsideList<T> {
    ghost use Rattle.std.specs.Prelude.{ℕ, List};
    ghost use Rattle.std.specs.Coded.{coded_list, coded×, coded_ℕ};

    ghost Value = { List (ℕ × T) };

    ghost coded = { coded_list (coded× coded_ℕ T.code) };

    ghost use Rattle.packet_store.specs.Asides.{listed, IsPacked};

    ghost view = { λ a. listed a.first a.second a.third a.fourth };

    ghost invariant = { λ a. IsPacked a.first a.second a.third a.fourth };
}

impl<T: Drop> AsideList<T> {
    /// An empty list.
    pub fn new() -> AsideList<T>
        ensures { result ≡ [] }
    {
        AsideList {
            first: None,
            second: None,
            third: None,
            fourth: None,
        }
    }

    /// How many there are.
    pub fn len(&self) -> u8
        ensures len { result ≡ length self.now }
        ensures most { result ≤ 4 }
    {
        if self.first.is_none() {
            0
        } else if self.second.is_none() {
            1
        } else if self.third.is_none() {
            2
        } else if self.fourth.is_none() {
            3
        } else {
            MOST
        }
    }

    /// Appends a value to a list of fewer than four.
    pub fn push(&mut self, seq: u16, value: T)
        requires { length self.old < 4 }
        ensures { self.new ≡ self.old ++ (seq, value) ∷ [] }
    {
        let aside = Some(Aside { seq, value });
        if self.first.is_none() {
            self.first = aside;
        } else if self.second.is_none() {
            self.second = aside;
        } else if self.third.is_none() {
            self.third = aside;
        } else {
            self.fourth = aside;
        }
    }

    /// The number of the last value.
    fn last_seq(&self) -> Option<u16>
        ensures { result ≡ option_map (λ a. a.0) (slice_get self.now (length self.now - 1)) }
    {
        if let Some(aside) = &self.fourth {
            return Some(aside.seq);
        }
        if let Some(aside) = &self.third {
            return Some(aside.seq);
        }
        if let Some(aside) = &self.second {
            return Some(aside.seq);
        }
        if let Some(aside) = &self.first {
            return Some(aside.seq);
        }
        None
    }

    /// Whether the number is one above the last one modulo 2^16. Nothing follows an empty list.
    pub fn follows(&self, seq: u16) -> bool
        ensures { IsTrue result ↔ IsSomeAnd (slice_get self.now (length self.now - 1))
            (λ a. seq ≡ (a.0 + 1) % 2 ^ 16) }
    {
        match self.last_seq() {
            Some(last) => last.wrapping_add(1) == seq,
            None => false,
        }
    }

    /// Drops the values, and says how many there were.
    pub fn drop_all(&mut self) -> u8
        ensures count { result ≡ length self.old }
        ensures after { self.new ≡ [] }
    {
        let count = self.len();
        self.first = None;
        self.second = None;
        self.third = None;
        self.fourth = None;
        count
    }

    /// Takes the first value out of the list.
    pub fn take_first(&mut self) -> Option<T>
        ensures value { result ≡ option_map (λ a. a.1) (slice_get self.old 0) }
        ensures after { self.new ≡ drop 1 self.old }
    {
        let fourth = self.fourth.take();
        let third = mem::replace(&mut self.third, fourth);
        let second = mem::replace(&mut self.second, third);
        match mem::replace(&mut self.first, second) {
            None => None,
            Some(aside) => Some(aside.value),
        }
    }
}
