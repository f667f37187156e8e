// What has been read of a file, and what it says of the next line: its fault, 2 to 5, and the progress with it.
#![tactic(auto)]

ghost use Rattle.std.specs.Prelude.{◌≡◌};
ghost use Rattle.std.specs.Result.{result_err};
ghost use Rattle.progress.specs.Progress.{Small};
ghost use Rattle.progress.specs.Lines.{behind, least_of, with_row, with_flow, with_comm, with_set, with_claim, row_line_fault, set_line_fault, claim_line_fault};

use format::Reason;
use read_sets::SetFault;
use store::Store;
use tables::Table;

// What has been read: the counts of lines, and the least number that rises in each section.
#[derive(Clone, Copy, PartialEq, Eq)]
pub struct Progress {
    pub rows: usize,
    pub flows: usize,
    pub comms: usize,
    pub claims: usize,
    pub flow_least: usize,
    pub comm_least: usize,
    pub claim_least: usize,
}

impl Progress {
    // How many lines of sections behind a table's have been read.
    pub fn behind(self, table: Table) -> usize
        requires { Small self }
        ensures { result ≡ behind table self }
    {
        match table {
            Table::Flow => self.comms + self.claims,
            Table::Comm => self.claims,
        }
    }

    // The least key that rises in a table.
    pub fn least(self, table: Table) -> usize
        ensures { result ≡ least_of table self }
    {
        match table {
            Table::Flow => self.flow_least,
            Table::Comm => self.comm_least,
        }
    }

    // With a row more.
    pub fn with_row(mut self) -> Progress
        requires { Small self }
        ensures { result ≡ with_row self }
    {
        self.rows += 1;
        self
    }

    // The two tables have counts of their own, so one function for both would be no plainer than these.

    // With a flow line more, behind which the least name that rises is another.
    pub fn with_flow(mut self, least: usize) -> Progress
        requires { Small self }
        ensures { result ≡ with_flow least self }
    {
        self.flows += 1;
        self.flow_least = least;
        self
    }

    // With a comm line more, behind which the least channel row that rises is another.
    pub fn with_comm(mut self, least: usize) -> Progress
        requires { Small self }
        ensures { result ≡ with_comm least self }
    {
        self.comms += 1;
        self.comm_least = least;
        self
    }

    // With a set more.
    pub fn with_set(self, table: Table, least: usize) -> Progress
        requires { Small self }
        ensures { result ≡ with_set table least self }
    {
        match table {
            Table::Flow => self.with_flow(least),
            Table::Comm => self.with_comm(least),
        }
    }

    // With a claim more, behind which the least channel row that rises is another.
    pub fn with_claim(mut self, least: usize) -> Progress
        requires { Small self }
        ensures { result ≡ with_claim least self }
    {
        self.claims += 1;
        self.claim_least = least;
        self
    }
}

// The fault of the line of row n, of whose numbers one may be above the limit.
#[tactic(auto, unfolding(crate::specs::Lines::row_line_fault))]
pub fn row_fault(p: Progress, n: usize, above: bool) -> Result<(), Reason>
    requires { Small p }
    ensures { result_err result ≡ row_line_fault p n above }
{
    let later = p.flows + p.comms + p.claims;
    if 0 < later {
        return Err(Reason::NotALine);
    }
    if Store::ROWS <= n {
        return Err(Reason::AboveLimit);
    }
    if above {
        return Err(Reason::AboveLimit);
    }
    if n != p.rows {
        return Err(Reason::OutOfCount);
    }
    Ok(())
}

// The fault of the line of a set with key n, which has a fault of its own or none.
#[tactic(auto, unfolding(crate::specs::Lines::set_line_fault))]
pub fn set_fault(p: Progress, table: Table, n: usize, fault: Option<SetFault>) -> Result<(), Reason>
    requires { Small p }
    ensures { result_err result ≡ set_line_fault table p n fault }
{
    if 0 < p.behind(table) {
        return Err(Reason::NotALine);
    }
    if Store::NAMES <= n {
        return Err(Reason::AboveLimit);
    }
    if matches!(fault, Some(SetFault::AboveLimit)) {
        return Err(Reason::AboveLimit);
    }
    if p.rows == 0 {
        return Err(Reason::OutOfCount);
    }
    if n < p.least(table) {
        return Err(Reason::NotRising);
    }
    if matches!(fault, Some(SetFault::NotRising)) {
        return Err(Reason::NotRising);
    }
    Ok(())
}

// The fault of the line of the claim on row n.
#[tactic(auto, unfolding(crate::specs::Lines::claim_line_fault))]
pub fn claim_fault(p: Progress, n: usize) -> Result<(), Reason>
    ensures { result_err result ≡ claim_line_fault p n }
{
    if Store::ROWS <= n {
        return Err(Reason::AboveLimit);
    }
    if p.rows == 0 {
        return Err(Reason::OutOfCount);
    }
    if n < p.claim_least {
        return Err(Reason::NotRising);
    }
    Ok(())
}
