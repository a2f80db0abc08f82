//! Single tokens: tests of the first, and what takes it.
ghost use Rattle.std.specs.Prelude.{◌≡◌};
ghost use Rattle.st_parser.specs.Grammar.Tokens.{kind, next};
ghost use Rattle.st_parser.specs.Reader.Parsers as spec;
ghost use Rattle.st_parser.specs.Reader.Parsers.{is_keyword, is_symbol, is_word, Takes};

use crate::cursor::Cursor;
use crate::fault::ReadFault;
use st_tokens::{Keyword, Kind, Symbol};
use st_tree::Word;
use st_tree::tree::{Identifier, Position};
use st_values::Natural;
use std::alloc::Global;

impl<'a> Cursor<'a> {
    /// Whether the first token is this symbol.
    pub fn at_symbol(&self, symbol: Symbol) -> bool
        ensures { result ≡ is_symbol symbol (kind self.now) }
    {
        match self.peek() {
            Some(Kind::Symbol(found)) => symbol == *found,
            _ => false,
        }
    }

    /// Whether the second token is this symbol.
    pub fn before_symbol(&self, symbol: Symbol) -> bool
        ensures { result ≡ is_symbol symbol (kind (next self.now)) }
    {
        match self.peek_second() {
            Some(Kind::Symbol(found)) => symbol == *found,
            _ => false,
        }
    }

    /// Whether the first token is this reserved word.
    pub fn at_keyword(&self, keyword: Keyword) -> bool
        ensures { result ≡ is_keyword keyword (kind self.now) }
    {
        match self.peek() {
            Some(Kind::Keyword(found)) => keyword == *found,
            _ => false,
        }
    }

    /// Whether the first token is a word that isn't reserved.
    pub fn at_word(&self) -> bool
        ensures { result ≡ is_word (kind self.now) }
    {
        matches!(self.peek(), Some(Kind::Word(_)))
    }

    /// Takes this symbol.
    #[tactic(auto, unfolding(crate::specs::Reader::Parsers::expect))]
    pub fn expect_symbol(&mut self, symbol: Symbol) -> Result<Position, ReadFault>
        ensures { Takes (spec.expect_symbol symbol self.old) result self.old self.new }
    {
        if self.at_symbol(symbol) {
            Ok(self.bump())
        } else {
            Err(self.unexpected())
        }
    }

    /// Takes this reserved word.
    #[tactic(auto, unfolding(crate::specs::Reader::Parsers::expect))]
    pub fn expect_keyword(&mut self, keyword: Keyword) -> Result<Position, ReadFault>
        ensures { Takes (spec.expect_keyword keyword self.old) result self.old self.new }
    {
        if self.at_keyword(keyword) {
            Ok(self.bump())
        } else {
            Err(self.unexpected())
        }
    }

    /// Takes a word that isn't reserved.
    #[tactic(auto, unfolding(crate::specs::Reader::Parsers::identifier))]
    pub fn identifier(&mut self, alloc: Global) -> Result<Identifier, ReadFault>
        ensures { Takes (spec.identifier self.old) result self.old self.new }
    {
        match self.peek() {
            Some(Kind::Word(word)) => {
                let spelling = Word::from_slice(alloc, word.bytes())?;
                let position = self.bump();
                Ok(Identifier { position, spelling })
            }
            _ => Err(self.unexpected()),
        }
    }

    /// Takes a word that isn't reserved, and this symbol after it.
    #[tactic(auto, unfolding(crate::specs::Reader::Parsers::identifier_before))]
    pub fn identifier_before(
        &mut self,
        alloc: Global,
        symbol: Symbol,
    ) -> Result<Identifier, ReadFault>
        ensures { Takes (spec.identifier_before symbol self.old) result self.old self.new }
    {
        let found = self.identifier(alloc)?;
        self.expect_symbol(symbol)?;
        Ok(found)
    }

    /// Takes a number without a sign.
    #[tactic(auto, unfolding(crate::specs::Reader::Parsers::number))]
    pub fn number(&mut self) -> Result<Natural, ReadFault>
        ensures { Takes (spec.number self.old) result self.old self.new }
    {
        match self.peek() {
            Some(Kind::Number(number)) => {
                let number = *number;
                self.bump();
                Ok(number)
            }
            _ => Err(self.unexpected()),
        }
    }
}
