ghost use Rattle.std.specs.Prelude.{◌≡◌, ◌^◌, ◌<◌, ◌≤◌};

use crate::{FIRST_XID, SECTIONS_MAX};
use std::marker::Model;

/// A session's number in its scenario, from 1 to 256.
#[derive(Clone, Copy, PartialEq, Eq, PartialOrd)]
pub struct SessionNo {
    number: u32,
}

impl Model for SessionNo {
    ghost use Rattle.std.specs.Prelude.{ℕ, ◌≤◌};
    ghost use Rattle.pgn_base.specs.declared.limits.TheConstants.{SECTIONS_MAX};

    ghost Value = { ℕ };

    ghost view = { λ session. session.number };

    ghost invariant = { λ session. (1 ≤ session.number) × (session.number ≤ SECTIONS_MAX) };

    ghost inverse = { λ n. record { number = n } };
}

impl SessionNo {
    pub fn new(n: u32) -> Self
        requires positive { 1 ≤ n }
        requires within { n ≤ SECTIONS_MAX }
        ensures { result ≡ n }
    {
        SessionNo { number: n }
    }

    pub fn get(&self) -> u32
        ensures value { result ≡ self.now }
        ensures positive { 1 ≤ self.now }
        ensures within { self.now ≤ SECTIONS_MAX }
    {
        self.number
    }
}

/// The number of a database, from 1 to 4,294,967,295.
#[derive(Clone, Copy, PartialEq, Eq)]
pub struct DbOid {
    number: u32,
}

impl Model for DbOid {
    ghost use Rattle.std.specs.Prelude.{ℕ, ◌^◌, ◌<◌, ◌≤◌};

    ghost Value = { ℕ };

    ghost view = { λ db. db.number };

    ghost invariant = { λ db. (1 ≤ db.number) × (db.number < 2 ^ 32) };

    ghost inverse = { λ n. record { number = n } };
}

impl DbOid {
    pub fn new(n: u32) -> Self
        requires { 1 ≤ n }
        ensures { result ≡ n }
    {
        DbOid { number: n }
    }

    pub fn get(&self) -> u32
        ensures value { result ≡ self.now }
        ensures positive { 1 ≤ self.now }
        ensures within { self.now < 2 ^ 32 }
    {
        self.number
    }
}

/// A transaction number. The first that a run draws is 3, and entry k of the journal, from 0, has 3 + k. As a mark or a bound it
/// stands for "below this number".
#[derive(Clone, Copy, PartialEq, Eq, PartialOrd)]
pub struct Xid {
    number: u32,
}

impl Model for Xid {
    ghost use Rattle.std.specs.Prelude.{ℕ, ◌^◌, ◌<◌, ◌≤◌};
    ghost use Rattle.pgn_base.specs.declared.limits.TheConstants.{FIRST_XID};

    ghost Value = { ℕ };

    ghost view = { λ xid. xid.number };

    ghost invariant = { λ xid. (FIRST_XID ≤ xid.number) × (xid.number < 2 ^ 32) };

    ghost inverse = { λ n. record { number = n } };
}

impl Xid {
    pub fn new(n: u32) -> Self
        requires { FIRST_XID ≤ n }
        ensures { result ≡ n }
    {
        Xid { number: n }
    }

    pub fn get(&self) -> u32
        ensures value { result ≡ self.now }
        ensures first { FIRST_XID ≤ self.now }
        ensures within { self.now < 2 ^ 32 }
    {
        self.number
    }
}
