//! Tables whose versions extend one another in a row.
ghost use Rattle.std.specs.Prelude.{◌≡◌, ◌↔◌, ◌-◌, ◌<◌, false, length, map, slice_get, Some, IsOk, IfOk, IfErr};
ghost use Rattle.np_chain.specs.Chain.{IsChain, IsSoundChain, StandsAt};
ghost use Rattle.np_chain.specs.ChainFaults.{IsFaultOf};

use crate::audits::extends;
use crate::breaks::Break;
use np_versions::NormTable;
use std::marker::Model;
use thiserror::Error;

/// Why tables are no chain.
#[derive(Clone, Copy, Debug, PartialEq, Eq, Error)]
pub enum ChainFault {
    /// There is no table.
    #[error("no version")]
    NoVersion,
    /// The version of the table at place `at`, from 0, does not extend the one before. It is the
    /// first such place, and `brk` is its first break.
    #[error("version {at} does not extend the one before: {brk}")]
    Broken { at: usize, brk: Break },
}

/// At least one table, each of whose versions extends the one before. Contracts see the tables.
#[derive(Debug, Drop)]
#[derive_where(Clone)]
pub struct Chain<'t, T: NormTable> {
    tables: &'t [T],
}

impl<'t, T: NormTable> Model for Chain<'t, T> {
    ghost use Rattle.std.specs.Prelude.{List, map};
    ghost use Rattle.np_chain.specs.Chain.{IsSoundChain};

    ghost Value = { List T };

    ghost view = { λ a. a.tables.now };

    ghost invariant = { λ a. IsSoundChain (map T.model a.tables.now) };
}

impl<'t, T: NormTable> Chain<'t, T> {
    /// The chain of these tables, in their order.
    ///
    /// # Errors
    /// `NoVersion` where there is no table, `Broken` where a version does not extend the one before.
    pub fn check(tables: &'t [T]) -> Result<Chain<'t, T>, ChainFault>
        ensures tables { IfOk result (λ chain. chain ≡ tables.now) }
        ensures chain { IsOk result ↔ IsChain (map T.model tables.now) }
        ensures fault { IfErr result (λ fault. IsFaultOf (map T.model tables.now) fault) }
    {
        if tables.is_empty() {
            return Err(ChainFault::NoVersion);
        }
        tables[0].meets_conditions();
        for at in 1..tables.len() {
            if let Err(brk) = extends(tables[at - 1].version(), tables[at].version()) {
                return Err(ChainFault::Broken { at, brk });
            }
        }
        Ok(Chain { tables })
    }

    /// Does nothing at run time: each version extends the one before, and all meet the conditions.
    pub fn meets_conditions(&self)
        ensures { IsSoundChain (map T.model self.now) }
    {
        let _ = &self.tables;
    }

    /// How many tables there are, at least 1.
    pub fn len(&self) -> usize
        ensures count { result ≡ length self.now }
        ensures some { 0 < result }
    {
        self.tables.len()
    }

    /// `false`: a chain has at least one table.
    pub fn is_empty(&self) -> bool
        ensures { result ≡ false }
    {
        false
    }

    /// The tables, in their order.
    pub fn tables(&self) -> &'t [T]
        ensures { result.now ≡ self.now }
    {
        let tables = self.tables;
        &tables[..]
    }

    /// The table at a place, from 0: its version extends all before it, and all after it extend it.
    pub fn at(&self, i: usize) -> &'t T
        requires { i < length self.now }
        ensures table { slice_get self.now i ≡ Some result.now }
        ensures stands { StandsAt (map T.model self.now) i (T.model result.now) }
    {
        let tables = self.tables;
        &tables[i]
    }

    /// The last table: its version extends all others.
    pub fn last(&self) -> &'t T
        ensures table { slice_get self.now (length self.now - 1) ≡ Some result.now }
        ensures stands { StandsAt (map T.model self.now) (length self.now - 1) (T.model result.now) }
    {
        let tables = self.tables;
        &tables[tables.len() - 1]
    }
}
