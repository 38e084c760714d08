//! Tables of cipher suites, searched by id or name.
ghost use Rattle.std.specs.Prelude.{◌≡◌, List, MatchOption, MatchResult, IsErr};
ghost use Rattle.std.specs.Option.{option_map};
ghost use Rattle.std.specs.Result.{IsOkAnd};
ghost use Rattle.tls_base.specs.CipherTable.{suite_of_id, suite_of_name, has_id, has_name, Differ, IsFirstFault};
ghost use Rattle.tls_base.specs.declared.cipher_suite.TlsCipherSuite.{TlsCipherSuite as Suite};

use crate::cipher_suite::TlsCipherSuite;
use crate::cipher_suite_id::TlsCipherSuiteID;
use std::error::Error;
use std::fmt;
use std::marker::Model;

/// Why a list of suites can't be a table. Positions are counted from 0.
#[derive(Debug, PartialEq, Drop)]
pub enum CipherTableFault {
    /// The suite at this position has the id of an earlier one.
    SameId(usize),
    /// The suite at this position has the name of an earlier one.
    SameName(usize),
}

impl fmt::Display for CipherTableFault {
    fn fmt<W: fmt::Write>(&self, f: &mut fmt::Formatter<W>) -> fmt::Result {
        match self {
            CipherTableFault::SameId(k) => write!(
                f,
                "the cipher suite at position {k} has the id of an earlier one"
            ),
            CipherTableFault::SameName(k) => write!(
                f,
                "the cipher suite at position {k} has the name of an earlier one"
            ),
        }
    }
}

impl Error for CipherTableFault {}

/// A list of suites that can't be a table, and why.
#[derive(Debug, PartialEq, Drop)]
pub struct CipherTableError {
    /// The first fault.
    pub fault: CipherTableFault,
    /// The list that was passed in.
    pub list: Vec<TlsCipherSuite>,
}

/// Shows the fault.
impl fmt::Display for CipherTableError {
    fn fmt<W: fmt::Write>(&self, f: &mut fmt::Formatter<W>) -> fmt::Result {
        self.fault.fmt(f)
    }
}

impl Error for CipherTableError {}

/// No suite in the table has this id or name.
#[derive(Debug, Drop)]
pub struct CipherSuiteNotFound(());

impl fmt::Display for CipherSuiteNotFound {
    fn fmt<W: fmt::Write>(&self, f: &mut fmt::Formatter<W>) -> fmt::Result {
        f.write_str("no cipher suite of the table has that id or name")
    }
}

impl Error for CipherSuiteNotFound {}

/// A table of cipher suites with distinct ids and distinct names.
#[derive(Drop)]
pub struct CipherTable {
    list: Vec<TlsCipherSuite>,
}

impl Model for CipherTable {
    ghost Value = { List Suite };

    ghost view = { λ t. t.list.items };

    ghost invariant = { λ t. Differ t.list.items };
}

/// Returns whether one of the suites has this id.
fn any_has_id(suites: &[TlsCipherSuite], id: u16) -> bool
    ensures { result ≡ has_id suites.now id }
{
    suites.iter().any(|s| s.id.0 == id)
}

/// Returns whether one of the suites has this name.
fn any_has_name(suites: &[TlsCipherSuite], name: &str) -> bool
    ensures { result ≡ has_name suites.now name.now }
{
    suites.iter().any(|s| s.name == name)
}

/// Returns the first suite with the id or the name of an earlier one. The id is tested before the
/// name.
fn first_fault(suites: &[TlsCipherSuite]) -> Option<CipherTableFault>
    ensures { MatchOption result (Differ suites.now) (IsFirstFault suites.now) }
{
    for (k, suite) in suites.iter().enumerate() {
        if any_has_id(&suites[..k], suite.id.0) {
            return Some(CipherTableFault::SameId(k));
        }
        if any_has_name(&suites[..k], suite.name) {
            return Some(CipherTableFault::SameName(k));
        }
    }
    None
}

impl CipherTable {
    /// Makes a table of these suites. Allocates nothing.
    ///
    /// Refuses a suite with the id or the name of an earlier one, and hands the list back. The
    /// fault is the first such position, counted from 0; if that repeats both, the id is reported.
    pub fn new(list: Vec<TlsCipherSuite>) -> Result<CipherTable, CipherTableError>
        ensures { MatchResult result
            (λ table. Differ list.items × (table ≡ list.items))
            (λ e. IsFirstFault list.items e.fault × (e.list ≡ list)) }
    {
        match first_fault(&list) {
            None => Ok(CipherTable { list }),
            Some(fault) => Err(CipherTableError { fault, list }),
        }
    }

    /// Returns the suites, in the order in which they were passed in.
    pub fn suites(&self) -> &[TlsCipherSuite]
        ensures { result.now ≡ self.now }
    {
        &self.list
    }

    /// Returns the suite with this id, if there is one.
    pub fn by_id(&self, id: u16) -> Option<&TlsCipherSuite>
        ensures { option_map (λ s. s.now) result ≡ suite_of_id self.now id }
    {
        self.list.iter().find(|s| s.id.0 == id)
    }

    /// Returns the suite with this name, if there is one.
    fn by_name(&self, name: &str) -> Option<&TlsCipherSuite>
        ensures { option_map (λ s. s.now) result ≡ suite_of_name self.now name.now }
    {
        self.list.iter().find(|s| s.name == name)
    }

    /// Returns the suite with this id. Refuses an id that no suite has.
    pub fn try_from_u16(&self, id: u16) -> Result<&TlsCipherSuite, CipherSuiteNotFound>
        ensures { MatchOption (suite_of_id self.now id) (IsErr result)
            (λ s. IsOkAnd result (λ r. r.now ≡ s)) }
    {
        self.by_id(id).ok_or(CipherSuiteNotFound(()))
    }

    /// Returns the suite with this id. Refuses an id that no suite has.
    pub fn try_from_id(&self, id: TlsCipherSuiteID) -> Result<&TlsCipherSuite, CipherSuiteNotFound>
        ensures { MatchOption (suite_of_id self.now id.0) (IsErr result)
            (λ s. IsOkAnd result (λ r. r.now ≡ s)) }
    {
        self.try_from_u16(id.0)
    }

    /// Returns the suite with this name. Refuses a name that no suite has.
    pub fn try_from_name<'a>(
        &'a self,
        name: &str,
    ) -> Result<&'a TlsCipherSuite, CipherSuiteNotFound>
        ensures { MatchOption (suite_of_name self.now name.now) (IsErr result)
            (λ s. IsOkAnd result (λ r. r.now ≡ s)) }
    {
        self.by_name(name).ok_or(CipherSuiteNotFound(()))
    }
}

impl TlsCipherSuite {
    /// Returns the table's suite with this id, if there is one.
    pub fn from_id(table: &CipherTable, id: u16) -> Option<&TlsCipherSuite>
        ensures { option_map (λ s. s.now) result ≡ suite_of_id table.now id }
    {
        table.by_id(id)
    }

    /// Returns the table's suite with this name, if there is one.
    pub fn from_name<'a>(table: &'a CipherTable, name: &str) -> Option<&'a TlsCipherSuite>
        ensures { option_map (λ s. s.now) result ≡ suite_of_name table.now name.now }
    {
        table.by_name(name)
    }
}

impl TlsCipherSuiteID {
    /// Returns the table's suite with this id, if there is one.
    pub fn get_ciphersuite(self, table: &CipherTable) -> Option<&TlsCipherSuite>
        ensures { option_map (λ s. s.now) result ≡ suite_of_id table.now self.0 }
    {
        table.by_id(self.0)
    }
}
