ghost use Rattle.std.specs.Prelude.{◌≡◌};
ghost use Rattle.ve_main.specs.Stops.{status_of, message_of, stop_of, stop_of_words};
ghost use Rattle.ve_main.specs.declared.stop.Stop.TheVariants.{Memory as OutOfMemory};

use ve_port::OutFault;
use ve_word::Memory;
use ve_words::WordsFault;

/// Why a run ends without its text.
#[derive(Drop)]
pub enum Stop {
    /// The words of the command line are refused.
    Words,
    /// The input is too long.
    TooLong,
    /// The text is refused, with the message of its first fault.
    Refused(Vec<u8>),
    /// There is no presentation with the numbers of the command.
    NoPresentation,
    /// The source failed.
    Input,
    /// The output failed.
    Output,
    /// Want of memory.
    Memory,
}

impl Stop {
    /// The status that the program ends with.
    pub fn status(&self) -> u8
        ensures { result ≡ status_of self.now }
    {
        match self {
            Stop::Words => 2,
            Stop::TooLong | Stop::Refused(_) | Stop::NoPresentation => 3,
            Stop::Input => 4,
            Stop::Output => 5,
            Stop::Memory => 6,
        }
    }

    /// The line for the error output.
    pub fn message(&self) -> &[u8]
        ensures { result.now ≡ message_of self.now }
    {
        match self {
            Stop::Words => {
                b"venum: usage: venum alone, shared, show, check or make, with their options\n"
            }
            Stop::TooLong => b"venum: input longer than 16777216 bytes\n",
            Stop::Refused(message) => message,
            Stop::NoPresentation => b"venum: no such presentation\n",
            Stop::Input => b"venum: input failed\n",
            Stop::Output => b"venum: output failed\n",
            Stop::Memory => b"venum: out of memory\n",
        }
    }
}

impl From<Memory> for Stop {
    ghost from_gives = { λ _ stop. stop ≡ OutOfMemory };

    fn from(_want: Memory) -> Stop {
        Stop::Memory
    }
}

impl From<WordsFault> for Stop {
    ghost from_gives = { λ fault stop. stop ≡ stop_of_words fault };

    fn from(fault: WordsFault) -> Stop {
        match fault {
            WordsFault::Refused => Stop::Words,
            WordsFault::Memory => Stop::Memory,
        }
    }
}

impl From<OutFault> for Stop {
    ghost from_gives = { λ fault stop. stop ≡ stop_of fault };

    fn from(fault: OutFault) -> Stop {
        match fault {
            OutFault::Sink => Stop::Output,
            OutFault::Memory => Stop::Memory,
        }
    }
}
