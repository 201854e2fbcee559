//! Keys by numbers.

ghost use Rattle.std.specs.Prelude.{◌≡◌, ◌≢◌, ◌<◌, ◌%◌, ℕ, None, Some, IfOk, IfSome, OnErr, OnOk, false, length, true};
ghost use Rattle.std.specs.Option.{option_or};
ghost use Rattle.slot_index.specs.Keys.{far_key, is_free_for, key_for, near_at, owned};
ghost use Rattle.slot_index.specs.declared.numbered_keys.TheConstants.{NEAR};

use std::alloc::{AllocError, Global};
use std::collections::HashMap;
use std::marker::Model;

/// The greatest length of the short list of `NumberedKeys`.
const NEAR: u64 = 16_384;

/// A key, and the number that has it.
#[derive(Clone, Copy)]
pub(crate) struct NumberedKey {
    pub number: u64,
    pub key: usize,
}

/// A key for some numbers, which is found at once. Its size depends on how many numbers have one, not on how high they are:
/// most are in a short list of at most 384 KiB, at the index that is the number's remainder. If another number's key is
/// at that index, they are in a map.
#[derive(Drop)]
pub struct NumberedKeys {
    near: Vec<Option<NumberedKey>>,
    far: HashMap<u64, usize>,
}

impl Model for NumberedKeys {
    ghost use Rattle.slot_index.specs.Keys.{KeysValue};

    ghost Value = { KeysValue };

    ghost view = { λ k. record { near = k.near.items; far = k.far.entries } };
}

impl NumberedKeys {
    /// No number has a key.
    pub fn new(alloc: Global) -> NumberedKeys
        ensures { (n : ℕ) → owned result n ≡ None }
    {
        NumberedKeys {
            near: Vec::new(alloc),
            far: HashMap::new(alloc),
        }
    }

    /// The number's key.
    #[inline(always)]
    pub fn get(&self, number: u64) -> Option<usize>
        ensures { result ≡ owned self.now number }
    {
        match near_key(self.near.as_slice(), number) {
            Some(key) => Some(key),
            None => far_key(&self.far, number),
        }
    }

    /// Gives the number this key. Returns the key that it had.
    ///
    /// Errors: out of memory.
    #[inline(always)]
    pub fn insert(&mut self, number: u64, key: usize) -> Result<Option<usize>, AllocError>
        ensures old { IfOk result (λ old. old ≡ owned self.old number) }
        ensures own { OnOk result (owned self.new number ≡ Some key) }
        ensures others { OnOk result ((n : ℕ) → n ≢ number → owned self.new n ≡ owned self.old n) }
        ensures memory { OnErr result (self.new ≡ self.old) }
    {
        let entry = NumberedKey { number, key };
        if self.far.is_empty() && fill_near(self.near.as_mut_slice(), entry) {
            return Ok(None);
        }
        self.insert_anywhere(number, key)
    }

    /// Like `insert`, whatever is at the number's index. This rare path is not inlined.
    #[inline(never)]
    fn insert_anywhere(&mut self, number: u64, key: usize) -> Result<Option<usize>, AllocError>
        ensures old { IfOk result (λ old. old ≡ owned self.old number) }
        ensures own { OnOk result (owned self.new number ≡ Some key) }
        ensures others { OnOk result ((n : ℕ) → n ≢ number → owned self.new n ≡ owned self.old n) }
        ensures memory { OnErr result (self.new ≡ self.old) }
    {
        let old = self.get(number);
        if is_free(self.near.as_slice(), number) {
            put_near(&mut self.near, NumberedKey { number, key })?;
        } else {
            self.far.insert(number, key)?;
        }
        Ok(old)
    }

    /// Takes the number's key away. Returns the key that it had.
    #[inline(always)]
    pub fn remove(&mut self, number: u64) -> Option<usize>
        ensures old { result ≡ owned self.old number }
        ensures own { owned self.new number ≡ None }
        ensures others { (n : ℕ) → n ≢ number → owned self.new n ≡ owned self.old n }
    {
        let near = cut_near(self.near.as_mut_slice(), number);
        if self.far.is_empty() {
            return near;
        }
        first_of(near, cut_far(&mut self.far, number))
    }
}

/// The first key, or else the second one.
fn first_of(near: Option<usize>, far: Option<usize>) -> Option<usize>
    ensures { result ≡ option_or near far }
{
    match near {
        Some(key) => Some(key),
        None => far,
    }
}

/// The key of `number`, if it is in the short list.
#[inline(always)]
fn near_key(near: &[Option<NumberedKey>], number: u64) -> Option<usize>
    ensures { result ≡ key_for (near_at near.now number) number }
{
    match at(near, number) {
        Some(entry) if entry.number == number => Some(entry.key),
        _ => None,
    }
}

/// Whether no other number's key is at the index of `number`.
fn is_free(near: &[Option<NumberedKey>], number: u64) -> bool
    ensures { result ≡ is_free_for (near_at near.now number) number }
{
    match at(near, number) {
        Some(entry) => entry.number == number,
        None => true,
    }
}

/// The entry at the index of `number`, if any.
#[inline(always)]
fn at(near: &[Option<NumberedKey>], number: u64) -> Option<NumberedKey>
    ensures { result ≡ near_at near.now number }
{
    let place = (number % NEAR) as usize;
    if place < near.len() {
        near[place]
    } else {
        None
    }
}

/// Extends the list to cover the index of `number`.
fn cover(near: &mut Vec<Option<NumberedKey>>, number: u64) -> Result<(), AllocError>
    ensures covered { OnOk result (number % NEAR < length near.new.items) }
    ensures same { (n : ℕ) → near_at near.new.items n ≡ near_at near.old.items n }
    ensures memory { OnErr result (near.new.items ≡ near.old.items) }
{
    let place = (number % NEAR) as usize;
    if place < near.len() {
        return Ok(());
    }
    near.resize(place + 1, None)
}

/// Writes `entry` at the index of `number`.
fn set_near(near: &mut Vec<Option<NumberedKey>>, number: u64, entry: Option<NumberedKey>)
    requires { IfSome entry (λ e. number % NEAR < length near.old.items) }
    ensures own { near_at near.new.items number ≡ entry }
    ensures others { (n : ℕ) → n % NEAR ≢ number % NEAR → near_at near.new.items n ≡ near_at near.old.items n }
{
    let place = (number % NEAR) as usize;
    if place < near.len() {
        near[place] = entry;
    }
}

/// Puts a number's key at its index, at which no other number's key is.
fn put_near(near: &mut Vec<Option<NumberedKey>>, entry: NumberedKey) -> Result<(), AllocError>
    requires { is_free_for (near_at near.old.items entry.number) entry.number ≡ true }
    ensures own { OnOk result (key_for (near_at near.new.items entry.number) entry.number ≡ Some entry.key) }
    ensures others { OnOk result ((n : ℕ) → n ≢ entry.number → key_for (near_at near.new.items n) n ≡ key_for (near_at near.old.items n) n) }
    ensures memory { OnErr result (near.new.items ≡ near.old.items) }
{
    cover(near, entry.number)?;
    set_near(near, entry.number, Some(entry));
    Ok(())
}

/// Puts a number's key at its index, if the list covers that and it is empty; returns whether it did.
#[inline(always)]
fn fill_near(near: &mut [Option<NumberedKey>], entry: NumberedKey) -> bool
    ensures free { result ≡ true → near_at near.old entry.number ≡ None }
    ensures own { result ≡ true → key_for (near_at near.new entry.number) entry.number ≡ Some entry.key }
    ensures others { result ≡ true → (n : ℕ) → n ≢ entry.number → key_for (near_at near.new n) n ≡ key_for (near_at near.old n) n }
    ensures same { result ≡ false → near.new ≡ near.old }
{
    let place = (entry.number % NEAR) as usize;
    if place >= near.len() || near[place].is_some() {
        return false;
    }
    near[place] = Some(entry);
    true
}

/// Removes the key of `number` from the short list, and returns it, if it is there.
#[inline(always)]
fn cut_near(near: &mut [Option<NumberedKey>], number: u64) -> Option<usize>
    ensures old { result ≡ key_for (near_at near.old number) number }
    ensures own { key_for (near_at near.new number) number ≡ None }
    ensures others { (n : ℕ) → n ≢ number → key_for (near_at near.new n) n ≡ key_for (near_at near.old n) n }
{
    let place = (number % NEAR) as usize;
    if place >= near.len() {
        return None;
    }
    match near[place] {
        Some(entry) if entry.number == number => {
            near[place] = None;
            Some(entry.key)
        }
        _ => None,
    }
}

/// The key that a number has in a map.
fn far_key(far: &HashMap<u64, usize>, number: u64) -> Option<usize>
    ensures { result ≡ far_key far.now.entries number }
{
    if far.is_empty() {
        return None;
    }
    far.get(&number).copied()
}

/// A number has no key in a map any more: the one that it had there.
#[inline(never)]
fn cut_far(far: &mut HashMap<u64, usize>, number: u64) -> Option<usize>
    ensures old { result ≡ far_key far.old.entries number }
    ensures own { far_key far.new.entries number ≡ None }
    ensures others { (n : ℕ) → n ≢ number → far_key far.new.entries n ≡ far_key far.old.entries n }
{
    far.remove(&number)
}
