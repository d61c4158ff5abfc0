// What an operation answers, and how a caller in another language is told it. The meaning itself is definitions, in
// specs/.
#![tactic(auto)]

ghost use Rattle.std.specs.Prelude.{◌≡◌};
ghost use Rattle.meaning.specs.Told.{told, told_taken, told_delivered};

use stream::Fault;

// "Accepted is 0."
const ACCEPTED: u32 = 0;

// Check, Left, Join and Longest: document 01's number, and how many bytes stand at the front of the lent buffer.
#[repr(C)]
#[derive(Clone, Copy)]
pub struct Written {
    pub number: u32,
    pub written: usize,
}

impl From<Result<usize, Fault>> for Written {
    ghost from_gives = { λ answer w. w ≡ told answer };

    fn from(answer: Result<usize, Fault>) -> Written {
        match answer {
            Ok(written) => Written {
                number: ACCEPTED,
                written,
            },
            Err(fault) => Written {
                number: fault.into(),
                written: 0,
            },
        }
    }
}

// Admit: the number, 1 if the slice is complete, else 0, and how many cues and levels came in it.
#[repr(C)]
#[derive(Clone, Copy)]
pub struct Admitted {
    pub number: u32,
    pub complete: u32,
    pub arrived: u32,
}

// What Admit finds of a slice that it accepts.
#[derive(Clone, Copy)]
pub struct Taken {
    pub complete: bool,
    pub arrived: u32,
}

impl From<Result<Taken, Fault>> for Admitted {
    ghost from_gives = { λ answer a. a ≡ told_taken answer };

    fn from(answer: Result<Taken, Fault>) -> Admitted {
        match answer {
            Ok(taken) => Admitted {
                number: ACCEPTED,
                complete: taken.complete as u32,
                arrived: taken.arrived,
            },
            Err(fault) => Admitted {
                number: fault.into(),
                complete: 0,
                arrived: 0,
            },
        }
    }
}

// Feed: the number, how many bytes stand at the front of each lent buffer, and how many cues and levels came in the slice and were
// sent.
#[repr(C)]
#[derive(Clone, Copy)]
pub struct Fed {
    pub number: u32,
    pub output: usize,
    pub patch: usize,
    pub arrived: u32,
    pub sent: u32,
}

// What Feed comes to where it is not refused.
#[derive(Clone, Copy)]
pub struct Delivered {
    pub output: usize,
    pub patch: usize,
    pub arrived: u32,
    pub sent: u32,
}

impl From<Result<Delivered, Fault>> for Fed {
    ghost from_gives = { λ answer f. f ≡ told_delivered answer };

    fn from(answer: Result<Delivered, Fault>) -> Fed {
        match answer {
            Ok(delivered) => Fed {
                number: ACCEPTED,
                output: delivered.output,
                patch: delivered.patch,
                arrived: delivered.arrived,
                sent: delivered.sent,
            },
            Err(fault) => Fed {
                number: fault.into(),
                output: 0,
                patch: 0,
                arrived: 0,
                sent: 0,
            },
        }
    }
}
