// From the bytes of a setup to the setup.
ghost use Rattle.std.specs.Prelude.{◌≡◌, ℕ, List, ◌≤◌, ◌<◌, length, IfOk, Result};
ghost use Rattle.cf_setup.specs.declared.parse.SetupFault.TheVariants.{Bad};
ghost use Rattle.cf_setup.specs.Codes.{code_number};
ghost use Rattle.cf_lines.specs.Lines.{lines_of};
ghost use Rattle.cf_setup.specs.Drafts.{nothing_stated};
ghost use Rattle.cf_setup.specs.Reading.{setup_at, setup_from, settled_or, fault_at, Answers};
ghost use Rattle.cf_setup.specs.Setups.{SetupValue, IsSetup, IsDraft};
ghost use Rattle.cf_setup.specs.SetupText.{SetupText};
ghost use Rattle.cf_filter.specs.Grammar.{Only};

use crate::Setup;
use crate::draft::Draft;
use crate::fault::{Code, LineFault};
use crate::line::read_line;
use cf_filter::unspaced;
use cf_lines::first_line;
use std::alloc::Global;
use thiserror::Error;

/// Why a text is no setup.
#[derive(Clone, Copy, Debug, PartialEq, Eq, Error)]
pub enum SetupFault {
    /// The first faulty line, from 1, and the least code of a rule that it breaks. A text of more than 65,536 bytes is line 0.
    ///
    /// The codes: 1 a byte that is no printed ASCII, 2 no statement, or one that is out of place, 3 not in the statement's
    /// form, 4 no schema, 5 a name that is taken, 6 a name of nothing, 7 no number, 8 an attribute of another kind, 9 too many,
    /// and of an expression 10 syntax, 11 an unknown name, 12 a bad operator, 13 a value out of range, 14 too long.
    #[error("line {line} breaks rule {code}")]
    Bad { line: u32, code: u8 },
    /// Want of memory.
    #[error("out of memory")]
    Memory,
}

fn broken(line: u32, code: Code) -> SetupFault
    ensures { result ≡ Bad line (code_number code) }
{
    SetupFault::Bad {
        line,
        code: code.number(),
    }
}

impl LineFault {
    // The fault of the setup whose first faulty line is that one.
    fn at(self, line: u32) -> SetupFault
        ensures { result ≡ fault_at line self }
    {
        match self {
            LineFault::Breaks(code) => broken(line, code),
            LineFault::Memory => SetupFault::Memory,
        }
    }
}

impl Draft {
    // The setup, if its schema is stated; if not, the line after the last one lacks a statement.
    fn settle(self, line: u32) -> Result<Setup, SetupFault>
        requires { IsDraft self }
        ensures { Answers result (settled_or line self self.schema) }
    {
        let Draft {
            source,
            schema_line,
            schema,
            width,
            lanes,
            triggers,
            asks,
            lives,
            lane_names,
            trigger_names,
            ask_names,
        } = self;
        let Some(schema) = schema else {
            return Err(broken(line, Code::BadStatement));
        };
        Ok(Setup {
            source,
            schema_line,
            schema,
            width: width.unwrap_or(1_000_000_000),
            lanes,
            triggers,
            asks,
            lives,
            lane_names,
            trigger_names,
            ask_names,
        })
    }
}

fn read_lines(alloc: Global, bytes: &[u8]) -> Result<Setup, SetupFault>
    requires { length bytes.now ≤ 65536 }
    ensures { Answers result (setup_from 1 nothing_stated (lines_of bytes.now)) }
{
    let mut draft = Draft::new(alloc);
    let mut rest = bytes;
    let mut number = 1u32;
    while !rest.is_empty() {
        let (line, next) = first_line(rest);
        draft = match read_line(alloc, number, draft, unspaced(line)) {
            Ok(stated) => stated,
            Err(fault) => return Err(fault.at(number)),
        };
        rest = next;
        number += 1;
    }
    draft.settle(number)
}

fn read_setup(alloc: Global, bytes: &[u8]) -> Result<Setup, SetupFault>
    ensures { Answers result (setup_at bytes.now) }
{
    if bytes.len() > 65_536 {
        return Err(broken(0, Code::TooMany));
    }
    read_lines(alloc, bytes)
}

/// The setup that the bytes are the text of, or its first faulty line with the least code of a rule that it breaks.
pub fn parse_setup(alloc: Global, bytes: &[u8]) -> Result<Setup, SetupFault>
    // The answer is what the text is, as a setup or by its first faulty line.
    ensures found { (read : Result SetupValue (ℕ × ℕ)) × SetupText bytes.now read × Answers result read }
    // What the text is is the answer, unless memory runs out.
    ensures only { (read : Result SetupValue (ℕ × ℕ)) → SetupText bytes.now read → Answers result read }
    ensures lawful { IfOk result IsSetup }
{
    read_setup(alloc, bytes)
}

/// Each text has just one outcome, a setup or its first faulty line, and `setup_at` is it.
pub fn one_outcome()
    ensures { (bytes : List ℕ) → Only (SetupText bytes) (setup_at bytes) }
{}
