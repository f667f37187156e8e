// The program of a dispenser file, as docs/FORMAT.md describes it.
#![tactic(auto)]

// A form is one of these fourteen, with exactly its own names and rows. Numbers are names, except
// `body`, `child`, `left` and `right`, which are rows.
#[derive(Clone, Copy, PartialEq, Eq)]
pub enum Form {
    Unit,
    Chan,
    Send {
        channel: u8,
        message: u8,
    },
    Recv {
        channel: u8,
    },
    Pair {
        first: u8,
        second: u8,
    },
    Left {
        value: u8,
    },
    Right {
        value: u8,
    },
    Fun {
        own: u8,
        parameter: u8,
        body: u8,
    },
    Spawn {
        child: u8,
    },
    Sync {
        event: u8,
    },
    First {
        pair: u8,
    },
    Second {
        pair: u8,
    },
    Case {
        subject: u8,
        left_name: u8,
        left: u8,
        right_name: u8,
        right: u8,
    },
    Apply {
        function: u8,
        argument: u8,
    },
}

// A bind holds one form and the row of the rest.
#[derive(Clone, Copy, PartialEq, Eq)]
pub struct Bind {
    pub name: u8,
    pub form: Form,
    pub rest: u8,
}

// A row is a result or a bind.
#[derive(Clone, Copy, PartialEq, Eq)]
pub enum Row {
    Result(u8),
    Bind(Bind),
}

// The words of a claim.
#[derive(Clone, Copy, PartialEq, Eq)]
pub enum Word {
    OneShot,
    OneToOne,
    FanOut,
    FanIn,
    Many,
    OneSync,
}

// What is found of the walks that come to some places: one that comes to two of them, one after the other, and two that
// part at a spawn row and come to places.
#[derive(Clone, Copy, PartialEq, Eq)]
pub struct Ends {
    pub twice: bool,
    pub rivals: bool,
}

// What is found at the two ends of a channel: at its send places and at its receive places. Every word is told from this.
#[derive(Clone, Copy, PartialEq, Eq)]
pub struct Facts {
    pub sends: Ends,
    pub receives: Ends,
}
