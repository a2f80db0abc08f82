//! Lists of items, each of which a function reads that is passed.
ghost use Rattle.std.specs.Prelude.{◌≡◌, ◌<◌, ◌≤◌, Bool, Option, [], ◌∷◌, ◌++◌, length, Err, IfErr, IfOk, IsOkAnd, Ok, OnOk};
ghost use Rattle.st_parser.specs.Names as names;
ghost use Rattle.st_parser.specs.Reader.Functions.{IsReader, IsTest, ReadsAs, TestsAs};
ghost use Rattle.st_parser.specs.Reader.Parsers as spec;
ghost use Rattle.st_parser.specs.Reader.Parsers.{IsFaultOf, Parser, Reads, Takes};

use crate::cursor::Cursor;
use crate::fault::ReadFault;
use st_tokens::Symbol;
use st_tree::tree::Identifier;
use st_tree::{Boxed, List};
use std::alloc::Global;

/// What was read, in a box. It is refused where that was, and for want of memory.
#[inline(always)]
pub fn boxed<T: Drop>(alloc: Global, read: Result<T, ReadFault>) -> Result<Boxed<T>, ReadFault>
    ensures ok { IfOk result (λ kept. read ≡ Ok kept) }
    ensures refused { IfErr read (λ fault. result ≡ Err fault) }
    ensures err { IfErr result (IsFaultOf read) }
{
    Ok(Boxed::new(alloc, read?)?)
}

/// What was read, as the only item of a list. It is refused where that was, and for want of memory.
#[inline(always)]
pub fn single<T: Drop>(alloc: Global, read: Result<T, ReadFault>) -> Result<List<T>, ReadFault>
    ensures ok { IfOk result (λ list. IsOkAnd read (λ item. list ≡ item ∷ [])) }
    ensures refused { IfErr read (λ fault. result ≡ Err fault) }
    ensures err { IfErr result (IsFaultOf read) }
{
    let mut list = List::new(alloc);
    add(&mut list, read)?;
    Ok(list)
}

/// Adds what was read to what was found before. It is refused where that was, and for want of memory.
#[inline(always)]
pub fn add<T: Drop>(found: &mut List<T>, read: Result<T, ReadFault>) -> Result<(), ReadFault>
    ensures ok { IfOk result (λ _. IsOkAnd read (λ item. found.new ≡ found.old ++ item ∷ [])) }
    ensures refused { IfErr read (λ fault. result ≡ Err fault) }
    ensures err { IfErr result (IsFaultOf read) }
{
    found.push(read?)?;
    Ok(())
}

/// `{ item }`, as long as the first token passes the test `begins`.
pub fn many<
    T: Drop,
    B: FnOnce(&Cursor<'_>) -> bool + Copy,
    F: FnOnce(Global, &mut Cursor<'_>) -> Result<T, ReadFault> + Copy,
>(alloc: Global, ts: &mut Cursor<'_>, begins: B, item: F) -> Result<List<T>, ReadFault>
    requires test { IsTest (B.pre begins) }
    requires item { IsReader (F.pre item) (F.post item) }
    ensures read { (test : Option names.Kind → Bool) (p : Parser T) → TestsAs test (B.post begins)
        → ReadsAs p (F.post item) → Reads (spec.many test p ts.old) result ts.new }
    ensures shorter { OnOk result (length ts.new ≤ length ts.old) }
{
    more(alloc, ts, begins, item, List::new(alloc))
}

/// `item { item }`, as long as the first token passes the test `begins`.
pub fn at_least_one<
    T: Drop,
    B: FnOnce(&Cursor<'_>) -> bool + Copy,
    F: FnOnce(Global, &mut Cursor<'_>) -> Result<T, ReadFault> + Copy,
>(alloc: Global, ts: &mut Cursor<'_>, begins: B, item: F) -> Result<List<T>, ReadFault>
    requires test { IsTest (B.pre begins) }
    requires item { IsReader (F.pre item) (F.post item) }
    ensures read { (test : Option names.Kind → Bool) (p : Parser T) → TestsAs test (B.post begins)
        → ReadsAs p (F.post item) → Reads (spec.leading p test p ts.old) result ts.new }
    ensures shorter { OnOk result (length ts.new < length ts.old) }
{
    let found = single(alloc, item(alloc, ts))?;
    more(alloc, ts, begins, item, found)
}

/// What was found, and `{ item }` after it, as long as the first token passes the test `begins`.
fn more<
    T: Drop,
    B: FnOnce(&Cursor<'_>) -> bool + Copy,
    F: FnOnce(Global, &mut Cursor<'_>) -> Result<T, ReadFault> + Copy,
>(
    alloc: Global,
    ts: &mut Cursor<'_>,
    begins: B,
    item: F,
    mut found: List<T>,
) -> Result<List<T>, ReadFault>
    requires test { IsTest (B.pre begins) }
    requires item { IsReader (F.pre item) (F.post item) }
    ensures read { (test : Option names.Kind → Bool) (p : Parser T) → TestsAs test (B.post begins)
        → ReadsAs p (F.post item)
        → Reads (spec.ahead found (spec.many test p ts.old)) result ts.new }
    ensures shorter { OnOk result (length ts.new ≤ length ts.old) }
{
    'items: while begins(ts) {
        add(&mut found, item(alloc, ts))?;
    }
    found.shrink_to_fit();
    Ok(found)
}

/// `item { ',' item }`.
pub fn listed<T: Drop, F: FnOnce(Global, &mut Cursor<'_>) -> Result<T, ReadFault> + Copy>(
    alloc: Global,
    ts: &mut Cursor<'_>,
    item: F,
) -> Result<List<T>, ReadFault>
    requires { IsReader (F.pre item) (F.post item) }
    ensures read { (p : Parser T) → ReadsAs p (F.post item)
        → Reads (spec.listed p ts.old) result ts.new }
    ensures shorter { OnOk result (length ts.new < length ts.old) }
{
    let mut found = single(alloc, item(alloc, ts))?;
    'items: while ts.at_symbol(Symbol::Comma) {
        ts.bump();
        add(&mut found, item(alloc, ts))?;
    }
    found.shrink_to_fit();
    Ok(found)
}

/// `word { ',' word }`.
pub fn words(alloc: Global, ts: &mut Cursor<'_>) -> Result<List<Identifier>, ReadFault>
    ensures { Takes (spec.listed spec.identifier ts.old) result ts.old ts.new }
{
    listed(
        alloc,
        ts,
        |alloc: Global, ts: &mut Cursor<'_>| ts.identifier(alloc),
    )
}
