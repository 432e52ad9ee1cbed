/// A call that a line asks for. Objects, references, callbacks and dictionaries go by name; 0 is none.
// No `Option`: in lists too 0 is a number that is written.
#[derive(PartialEq, Eq, Debug, Drop)]
pub enum Call {
    /// Says whether a host is present.
    Attend {
        host: bool,
    },
    /// Makes an object of a class; 0 to 8 edges.
    Make {
        class: u32,
        dictionary: u32,
        edges: Vec<u32>,
    },
    /// Takes one more handle of an object.
    Hold {
        object: u32,
    },
    /// Gives up a handle of an object.
    Drop {
        object: u32,
    },
    /// Makes a weak reference to an object.
    Weaken {
        class: u32,
        object: u32,
        callback: u32,
    },
    /// Asks a weak reference for its object.
    Upgrade {
        reference: u32,
    },
    /// Marks an object to be kept for ever.
    Intern {
        object: u32,
    },
    /// Hands the turn of that depth back.
    HandBack {
        turn: u32,
    },
}
