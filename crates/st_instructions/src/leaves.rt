//! Leaves of a memory, as cells.
ghost use Rattle.std.specs.Prelude.{◌≡◌, ◌<◌, get_or, length, IsTrue, Some};
ghost use Rattle.st_code.specs.Code.{cell_of};
ghost use Rattle.st_code.specs.Machine.{has_leaf, is_cell_of, value_in};
ghost use Rattle.st_meaning.specs.Meaning.{no_value, stored_to};
ghost use Rattle.st_memory.specs.Memory.{value_at};

use crate::cells::{cell, value_in};
use st_chart_runs::store_value;
use st_layout::Layout;
use st_memory::Memory;
use st_values::{Elem, Value};

/// The value of a leaf, as a cell.
#[inline(always)]
pub fn load<M: Memory>(memory: &M, layout: &Layout, leaf: u32) -> i64
    requires over { M.IsOver layout.now memory.now }
    requires below { leaf < length (M.content layout.now memory.now).values }
    ensures { result
        ≡ cell_of (get_or (M.content layout.now memory.now).values leaf no_value).bits }
{
    cell(memory.get(layout, leaf))
}

/// The same of a leaf that is likely to be of this type: where that is known as the code is made, its width is too.
#[inline(always)]
pub fn load_as<M: Memory>(memory: &M, layout: &Layout, elem: Elem, leaf: u32) -> i64
    requires over { M.IsOver layout.now memory.now }
    requires below { leaf < length layout.now }
    ensures { result
        ≡ cell_of (get_or (M.content layout.now memory.now).values leaf no_value).bits }
{
    if memory.elem(layout, leaf) == elem {
        let value = memory.get(layout, leaf);
        cell(value)
    } else {
        load_any(memory, layout, leaf)
    }
}

/// The value of a leaf of any type, as a cell.
#[cold]
#[inline(never)]
fn load_any<M: Memory>(memory: &M, layout: &Layout, leaf: u32) -> i64
    requires over { M.IsOver layout.now memory.now }
    requires below { leaf < length layout.now }
    ensures { result
        ≡ cell_of (get_or (M.content layout.now memory.now).values leaf no_value).bits }
{
    load(memory, layout, leaf)
}

/// The value of a leaf that is likely to be of this type: where that is known as the code is made, its width is too.
#[inline(always)]
pub(crate) fn value_as<M: Memory>(memory: &M, layout: &Layout, elem: Elem, leaf: u32) -> Value
    requires over { M.IsOver layout.now memory.now }
    requires below { leaf < length layout.now }
    ensures { result ≡ value_at (M.content layout.now memory.now).values leaf }
{
    if memory.elem(layout, leaf) == elem {
        memory.get(layout, leaf)
    } else {
        any_value(memory, layout, leaf)
    }
}

/// The value of a leaf of any type.
#[cold]
#[inline(never)]
fn any_value<M: Memory>(memory: &M, layout: &Layout, leaf: u32) -> Value
    requires over { M.IsOver layout.now memory.now }
    requires below { leaf < length layout.now }
    ensures { result ≡ value_at (M.content layout.now memory.now).values leaf }
{
    memory.get(layout, leaf)
}

/// Stores a cell, which is a value of the leaf's type, unless the leaf is forced.
#[inline(always)]
pub fn store<M: Memory>(memory: &mut M, layout: &Layout, elem: Elem, leaf: u32, cell: i64)
    requires over { M.IsOver layout.now memory.old }
    requires leaf { IsTrue (has_leaf (M.content layout.now memory.old).values elem leaf) }
    requires cell { IsTrue (is_cell_of elem cell) }
    ensures over { M.IsOver layout.now memory.new }
    ensures values { (M.content layout.now memory.new).values
        ≡ stored_to (M.content layout.now memory.old).forced
        (M.content layout.now memory.old).values (value_in elem cell) (Some leaf) }
    ensures forced { (M.content layout.now memory.new).forced
        ≡ (M.content layout.now memory.old).forced }
{
    store_value(memory, layout, leaf, value_in(elem, cell));
}
