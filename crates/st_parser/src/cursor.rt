//! The tokens of a text that are still to be read.
ghost use Rattle.std.specs.Prelude.{◌≡◌, ◌<◌, ◌-◌, ◌^◌, length, option_copied, IsSome};
ghost use Rattle.st_parser.specs.Grammar.Tokens.{numbered, kind, place, position, next};

use crate::fault::ReadFault;
use st_tokens::{Kind, Token};
use st_tree::tree::Position;
use std::marker::Model;

/// The tokens that are still to be read. Contracts see them with their numbers.
#[derive(Drop)]
pub struct Cursor<'a> {
    rest: &'a [Token<'a>],
    number: u32,
}

impl<'a> Model for Cursor<'a> {
    ghost use Rattle.std.specs.Prelude.{List, ◌+◌, ◌<◌, ◌^◌, length};
    ghost use Rattle.st_parser.specs.Grammar.Tokens.{Tok, numbered};

    ghost Value = { List Tok };

    ghost view = { λ cursor. numbered cursor.number cursor.rest.now };

    ghost invariant = { λ cursor. cursor.number + length cursor.rest.now < 2 ^ 32 };
}

impl<'a> Cursor<'a> {
    /// All tokens of a text.
    pub fn new(rest: &'a [Token<'a>]) -> Cursor<'a>
        requires { length rest.now < 2 ^ 32 }
        ensures { result ≡ numbered 0 rest.now }
    {
        Cursor { rest, number: 0 }
    }

    /// What the first token is.
    #[tactic(auto, using(crate::proofs::TokenLemmas::length_numbered))]
    pub fn peek(&self) -> Option<&'a Kind<'a>>
        ensures value { option_copied result ≡ kind self.now }
        ensures some { IsSome result → 0 < length self.now }
    {
        match self.rest {
            [] => None,
            [token, ..] => Some(&token.kind),
        }
    }

    /// What the second token is.
    pub fn peek_second(&self) -> Option<&'a Kind<'a>>
        ensures { option_copied result ≡ kind (next self.now) }
    {
        match self.rest {
            [] => None,
            [_, rest @ ..] => match rest {
                [] => None,
                [token, ..] => Some(&token.kind),
            },
        }
    }

    /// Where the first token stands.
    pub fn position(&self) -> Position
        ensures { result ≡ position self.now }
    {
        match self.rest {
            [] => Position { number: 0, line: 0 },
            [token, ..] => Position {
                number: self.number,
                line: token.line,
            },
        }
    }

    /// Where the first token stands, where there is one.
    pub fn place(&self) -> Option<Position>
        ensures { result ≡ place self.now }
    {
        match self.rest {
            [] => None,
            [token, ..] => Some(Position {
                number: self.number,
                line: token.line,
            }),
        }
    }

    /// The fault that the grammar doesn't have the first token here, or that there is none.
    pub fn unexpected(&self) -> ReadFault
        ensures { result ≡ ReadFault.NotInGrammar (place self.now) }
    {
        ReadFault::NotInGrammar {
            place: self.place(),
        }
    }

    /// Takes the first token, and answers where it stands.
    pub fn bump(&mut self) -> Position
        ensures value { result ≡ position self.old }
        ensures rest { self.new ≡ next self.old }
        ensures shorter { length self.new ≡ length self.old - 1 }
    {
        match self.rest {
            [] => Position { number: 0, line: 0 },
            [token, rest @ ..] => {
                let position = Position {
                    number: self.number,
                    line: token.line,
                };
                self.rest = rest;
                self.number += 1;
                position
            }
        }
    }
}
