//! The code of functions of the text.
ghost use Rattle.std.specs.Prelude.{◌≡◌};

use st_code::Code;
use st_meaning::Start;
use st_values::Elem;
use std::marker::Model;

/// The code of a function, for all calls of it.
#[derive(Drop)]
pub struct Function {
    code: Code,
    /// How deep its calls can lie: its level is above those of all functions that it calls.
    level: usize,
    /// The types of its inputs.
    inputs: Vec<Elem>,
    /// With which values its variables begin. The first of them is its result.
    starts: Vec<Start>,
}

impl Model for Function {
    ghost use Rattle.st_machine.specs.Functions.{FunctionView};

    ghost Value = { FunctionView };

    ghost view = { λ f. record {
      code = f.code;
      level = f.level;
      inputs = f.inputs.items;
      starts = f.starts.items;
    } };
}

impl Function {
    /// A function of this level.
    pub fn new(code: Code, level: usize, inputs: Vec<Elem>, starts: Vec<Start>) -> Function
        ensures { result ≡ record {
          code = code;
          level = level;
          inputs = inputs.items;
          starts = starts.items;
        } }
    {
        Function {
            code,
            level,
            inputs,
            starts,
        }
    }

    /// The code of its body.
    pub(crate) fn code(&self) -> &Code
        ensures { result.now ≡ self.now.code }
    {
        &self.code
    }

    /// Its level, from 0.
    pub(crate) fn level(&self) -> usize
        ensures { result ≡ self.now.level }
    {
        self.level
    }

    /// The types of its inputs.
    pub(crate) fn inputs(&self) -> &[Elem]
        ensures { result.now ≡ self.now.inputs }
    {
        &self.inputs
    }

    /// With which values its variables begin.
    pub(crate) fn starts(&self) -> &[Start]
        ensures { result.now ≡ self.now.starts }
    {
        &self.starts
    }
}
