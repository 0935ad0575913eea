// The values of keys, by block.
ghost use Rattle.std.specs.Prelude.{◌≡◌, List, IfOk, reverse};
ghost use Rattle.std.specs.List.{find};
ghost use Rattle.std.specs.Option.{option_copied, option_map};
ghost use Rattle.feed_conf.specs.Keys.{row_of};
ghost use Rattle.feed_conf.specs.Reading.{Use as Noted};
ghost use Rattle.feed_conf.specs.ReaderView.{declared_view, use_view};
ghost use Rattle.feed_conf.specs.Settings.{block_around, is_in_file, last_line, last_value, number, path_of};
ghost use Rattle.feed_conf.specs.Settings.{switch, text, value_along, value_in_file, value_of};
ghost use Rattle.feed_conf.specs.TableView.{IsTableOf, uses_view};
ghost use Rattle.feed_conf.specs.ValueView.{value_view};

use crate::key::SettingKey;
use crate::reader::{Declared, Use};
use crate::value::Value;
use std::alloc::{AllocError, Global};
use std::collections::BTreeMap;

/// The value of each key's last use in each block, by the block's number and the key's index.
#[derive(Drop)]
pub(crate) struct Table<'t> {
    values: BTreeMap<(usize, usize), Value<'t>>,
}

pub(crate) fn table_of<'t>(alloc: Global, uses: &[Use<'t>]) -> Result<Table<'t>, AllocError>
    ensures { IfOk result (λ table. IsTableOf table (uses_view uses.now)) }
{
    let mut values = BTreeMap::new(alloc);
    for held in uses {
        let index = (held.block, held.key.index());
        let value = held.value;
        values.insert(index, value)?;
    }
    Ok(Table { values })
}

// The last use of a key in the scope of the file.
fn last_use<'u, 't>(uses: &'u [Use<'t>], key: SettingKey) -> Option<&'u Use<'t>>
    ensures { option_copied result
        ≡ find (λ held. is_in_file key (use_view held)) (reverse uses.now) }
{
    uses.iter()
        .rev()
        .find(|held| held.block == 0 && held.key.index() == key.index())
}

/// The line of the last use of a key in the scope of the file, 0 if there is none.
pub(crate) fn last_line(uses: &[Use<'_>], key: SettingKey) -> u64
    ensures { result ≡ last_line key (uses_view uses.now) }
{
    match last_use(uses, key) {
        None => 0,
        Some(held) => held.line,
    }
}

// The number of the block around a block, 0 for the scope of the file.
fn block_around(outer: &[usize], block: usize) -> usize
    ensures { result ≡ block_around outer.now block }
{
    match outer.get(block.saturating_sub(1)) {
        Some(number) => *number,
        None => 0,
    }
}

impl<'t> Table<'t> {
    fn last_value(&self, block: usize, key: SettingKey) -> Option<Value<'t>>
        ensures { (uses : List Noted) → IsTableOf self.now uses
            → option_map value_view result ≡ last_value block (row_of key).index uses }
    {
        self.values.get(&(block, key.index())).copied()
    }

    // The value of a key in a block, otherwise in the blocks around it, from the inside out.
    fn value_along(&self, outer: &[usize], block: usize, key: SettingKey) -> Option<Value<'t>>
        ensures { (uses : List Noted) → IsTableOf self.now uses
            → option_map value_view result
            ≡ value_along (row_of key).index uses (path_of outer.now block) }
    {
        let mut at = block;
        for step in 0..block {
            if at == 0 {
                return self.last_value(0, key);
            }
            match self.last_value(at, key) {
                Some(value) => return Some(value),
                None => at = block_around(outer, at),
            }
        }
        self.last_value(0, key)
    }

    pub(crate) fn number(&self, outer: &[usize], peer: &Declared, key: SettingKey) -> u64
        ensures { (uses : List Noted) → IsTableOf self.now uses
            → result ≡ number (value_of uses outer.now (declared_view peer.now) key) }
    {
        let value = self.value_along(outer, peer.block, key);
        match value.unwrap_or(key.default_value(peer.name.bytes())) {
            Value::Number(number) => number,
            Value::Text(_) => 0,
            Value::Switch(_) => 0,
        }
    }

    pub(crate) fn switch(&self, outer: &[usize], peer: &Declared, key: SettingKey) -> bool
        ensures { (uses : List Noted) → IsTableOf self.now uses
            → result ≡ switch (value_of uses outer.now (declared_view peer.now) key) }
    {
        let value = self.value_along(outer, peer.block, key);
        match value.unwrap_or(key.default_value(peer.name.bytes())) {
            Value::Switch(on) => on,
            Value::Text(_) => false,
            Value::Number(_) => false,
        }
    }

    pub(crate) fn text(
        &self,
        alloc: Global,
        outer: &[usize],
        peer: &Declared,
        key: SettingKey,
    ) -> Result<Vec<u8>, AllocError>
        ensures { (uses : List Noted) → IsTableOf self.now uses
            → IfOk result (λ v. v.items
            ≡ text (value_of uses outer.now (declared_view peer.now) key)) }
    {
        let value = self.value_along(outer, peer.block, key);
        match value.unwrap_or(key.default_value(peer.name.bytes())) {
            Value::Text(octets) => Vec::from_slice(alloc, octets),
            Value::Switch(_) => Ok(Vec::new(alloc)),
            Value::Number(_) => Ok(Vec::new(alloc)),
        }
    }

    pub(crate) fn file_number(&self, key: SettingKey) -> u64
        ensures { (uses : List Noted) → IsTableOf self.now uses
            → result ≡ number (value_in_file uses key) }
    {
        let value = self.last_value(0, key);
        match value.unwrap_or(key.default_value(&[])) {
            Value::Number(number) => number,
            Value::Text(_) => 0,
            Value::Switch(_) => 0,
        }
    }

    pub(crate) fn file_switch(&self, key: SettingKey) -> bool
        ensures { (uses : List Noted) → IsTableOf self.now uses
            → result ≡ switch (value_in_file uses key) }
    {
        let default = key.default_value(&[]);
        match self.last_value(0, key).unwrap_or(default) {
            Value::Switch(on) => on,
            Value::Text(_) => false,
            Value::Number(_) => false,
        }
    }

    pub(crate) fn file_text(&self, alloc: Global, key: SettingKey) -> Result<Vec<u8>, AllocError>
        ensures { (uses : List Noted) → IsTableOf self.now uses
            → IfOk result (λ v. v.items ≡ text (value_in_file uses key)) }
    {
        let value = self.last_value(0, key);
        match value.unwrap_or(key.default_value(&[])) {
            Value::Text(octets) => Vec::from_slice(alloc, octets),
            Value::Switch(_) => Ok(Vec::new(alloc)),
            Value::Number(_) => Ok(Vec::new(alloc)),
        }
    }
}
