//! Candidate inputs of two machines.

ghost use Rattle.std.specs.Prelude.{◌≡◌, ◌<◌, ◌≤◌, ℤ, length, map, IfOk};
ghost use Rattle.fs_stores.specs.Values.{entry_number, content_of, sort_of};
ghost use Rattle.fs_stores.specs.InputValues.{input_values, inputs_of, signatures_of, input_signatures, Serves};
ghost use Rattle.fs_trials.specs.Pool.{most_values, pool_of, further_values, signed_values};
ghost use Rattle.fs_trials.specs.Candidates.{pool_count, candidate_count, pool_candidate, further_place, further_over};
ghost use Rattle.fs_trials.specs.Candidates.{further_candidate, candidate, array_of, candidate_array, content_at};
ghost use Rattle.fs_trials.specs.Candidates.{candidate_contents, candidate_inputs};

use crate::pool::{further_values, pool, signed_values};
use fs_ast::machine::Machine;
use fs_model::parts::Sort;
use fs_stores::inputs::Inputs;
use fs_stores::memory::NoMemory;
use fs_stores::numbers::Numbers;
use fs_stores::values::{Entries, Value};
use std::alloc::Global;

/// How many indices of an array, from 0 on, a candidate of the pool gives a number.
pub const POOL_FILLED: u64 = 16;

/// How many indices of an array, from 0 on, a further candidate gives a number.
pub const FURTHER_FILLED: u64 = 32;

/// How many indices of an array, from -1 down, a signed candidate gives a number.
pub const SIGNED_BELOW: u64 = 4;

/// How many further candidates there are.
pub const FURTHER_COUNT: u64 = 256;

/// The number of the first further candidate that is a signed one.
pub const FIRST_SIGNED: u64 = 192;

/// The numbers of which the candidates of two machines are made: their pool, and the numbers of the further candidates, where
/// the signed ones have numbers of their own.
#[derive(Drop)]
pub struct Candidates {
    pub pool: Vec<i128>,
    pub further: Vec<i128>,
    pub signed: Vec<i128>,
    pub ghost some: { 1 ≤ length pool.items },
    pub ghost few: { length pool.items ≤ most_values },
    pub ghost values: { further.items ≡ further_values pool.items },
    pub ghost signed_values: { signed.items ≡ signed_values pool.items },
}

impl Candidates {
    /// The candidates of two machines. The only refusal is out of memory.
    pub fn of(alloc: Global, a: &Machine, b: &Machine) -> Result<Candidates, NoMemory>
        ensures { IfOk result (λ c. c.pool.items ≡ pool_of a.now b.now) }
    {
        let pool = pool(alloc, a, b)?;
        let further = further_values(alloc, pool.as_slice())?;
        let signed = signed_values(alloc, pool.as_slice())?;
        Ok(Candidates {
            pool,
            further,
            signed,
        })
    }

    // How many candidates the pool gives: as many as its length times its length.
    fn pool_count(&self) -> u64
        ensures count { result ≡ pool_count self.now.pool.items }
        ensures bound { result ≤ 576 }
    {
        let len = self.pool.len() as u64;
        len * len
    }

    /// How many candidates there are: as many as the pool's length times its length, and 256 further ones. Takes no memory.
    pub fn count(&self) -> u64
        ensures { result ≡ candidate_count self.now.pool.items }
    {
        self.pool_count() + FURTHER_COUNT
    }

    /// What candidate `j` gives the inputs of a machine. The candidates of the pool come first, and then the further ones.
    /// Inputs are counted in order of declaration from 0, and n is how many numbers there are to take from.
    ///
    /// Candidate j of the pool gives index i of input k the number of the pool at the place `j + k * (j / n) + i`, where
    /// the quotient is rounded down and places are counted round. Further candidate j gives it the further number at the
    /// place `((j + 1)(j + 31)(k + 7) + (2j + 1)(k + 3)i + i * i * (j mod 5)) mod 10007 mod n`, and from j = 192 on, where it
    /// is a signed one, the signed number there. A scalar has the number of index 0. An array has those of its first indices,
    /// 16 by a candidate of the pool and 32 by a further one. By a signed one its indices -1 to -4 have the numbers that
    /// indices 32 to 35 would have. It has 0 elsewhere. The only refusal is out of memory.
    pub fn inputs(&self, alloc: Global, j: u64, m: &Machine) -> Result<Inputs, NoMemory>
        requires { j < candidate_count self.now.pool.items }
        ensures signatures { IfOk result (λ ins. signatures_of ins ≡ input_signatures m.now.variables) }
        ensures serves { IfOk result (λ ins. Serves (signatures_of ins) m.now) }
        ensures contents { IfOk result
            (λ ins. map content_of (input_values ins) ≡ candidate_contents self.now.pool.items j m.now) }
        ensures inputs { IfOk result (λ ins. inputs_of ins ≡ candidate_inputs self.now.pool.items j m.now) }
    {
        let mut inputs = Inputs::zero(alloc, m)?;
        for k in 0..m.vars().len() as u32 {
            let Some(sort) = inputs.sort(k) else {
                return Ok(inputs);
            };
            let own = self.value(alloc, j, u64::from(k), sort)?;
            inputs.set(alloc, k, own)?;
        }
        Ok(inputs)
    }

    // What candidate j gives input k of a sort.
    fn value(&self, alloc: Global, j: u64, k: u64, sort: Sort) -> Result<Value, NoMemory>
        requires candidate { j < candidate_count self.now.pool.items }
        requires input { k < 128 }
        ensures content { IfOk result (λ v. content_of v ≡ content_at (candidate self.now.pool.items j) k sort) }
        ensures sort { IfOk result (λ v. sort_of v ≡ sort) }
    {
        match sort {
            Sort::Scalar => Ok(Value::Num(self.number(j, k, 0))),
            Sort::Array => Ok(Value::Arr(self.array(alloc, j, k)?)),
            Sort::Port => Ok(Value::List(Numbers::new(alloc))),
        }
    }

    // The array that candidate j gives input k.
    fn array(&self, alloc: Global, j: u64, k: u64) -> Result<Entries, NoMemory>
        requires candidate { j < candidate_count self.now.pool.items }
        requires input { k < 128 }
        ensures { IfOk result (λ e. (i : ℤ) → entry_number e i ≡ candidate_array (candidate self.now.pool.items j) k i) }
    {
        let mut entries = self.first_entries(alloc, j, k)?;
        let filled = self.filled_count(j);
        for i in 0..self.below_count(j) {
            let index = -1 - i128::from(i);
            entries.set(index, self.number(j, k, filled + i))?;
        }
        Ok(entries)
    }

    // That array with 0 below index 0.
    fn first_entries(&self, alloc: Global, j: u64, k: u64) -> Result<Entries, NoMemory>
        requires candidate { j < candidate_count self.now.pool.items }
        requires input { k < 128 }
        ensures { IfOk result (λ e. (i : ℤ) → entry_number e i
            ≡ array_of ((candidate self.now.pool.items j).number k) (candidate self.now.pool.items j).filled 0 i) }
    {
        let mut entries = Entries::new(alloc);
        for i in 0..self.filled_count(j) {
            entries.set(i128::from(i), self.number(j, k, i))?;
        }
        Ok(entries)
    }

    // How many indices of an array candidate j gives a number.
    fn filled_count(&self, j: u64) -> u64
        ensures count { result ≡ (candidate self.now.pool.items j).filled }
        ensures bound { result ≤ 32 }
    {
        if j < self.pool_count() {
            POOL_FILLED
        } else {
            FURTHER_FILLED
        }
    }

    // How many indices of an array below 0 candidate j gives a number.
    fn below_count(&self, j: u64) -> u64
        ensures count { result ≡ (candidate self.now.pool.items j).below }
        ensures bound { result ≤ 4 }
    {
        if j < self.pool_count() + FIRST_SIGNED {
            0
        } else {
            SIGNED_BELOW
        }
    }

    // Number i that candidate j gives input k.
    fn number(&self, j: u64, k: u64, i: u64) -> i128
        requires candidate { j < candidate_count self.now.pool.items }
        requires input { k < 128 }
        requires index { i < 36 }
        ensures { result ≡ (candidate self.now.pool.items j).number k i }
    {
        let count = self.pool_count();
        if j < count {
            pool_number(self.pool.as_slice(), j, k, i)
        } else {
            self.further_number(j - count, k, i)
        }
    }

    // Number i that further candidate j gives input k.
    fn further_number(&self, j: u64, k: u64, i: u64) -> i128
        requires candidate { j < 256 }
        requires input { k < 128 }
        requires index { i < 36 }
        ensures { result ≡ (further_candidate self.now.pool.items j).number k i }
    {
        if j < FIRST_SIGNED {
            number_over(self.further.as_slice(), j, k, i)
        } else {
            number_over(self.signed.as_slice(), j, k, i)
        }
    }
}

// Number i of a pool that its candidate j gives input k.
fn pool_number(pool: &[i128], j: u64, k: u64, i: u64) -> i128
    requires some { 1 ≤ length pool.now }
    requires candidate { j < 576 }
    requires input { k < 128 }
    requires index { i < 36 }
    ensures { result ≡ (pool_candidate pool.now j).number k i }
{
    let len = pool.len() as u64;
    let place = j + k * (j / len) + i;
    pool[(place % len) as usize]
}

// Number i that further candidate j over numbers gives input k.
fn number_over(values: &[i128], j: u64, k: u64, i: u64) -> i128
    requires some { 1 ≤ length values.now }
    requires candidate { j < 256 }
    requires input { k < 128 }
    requires index { i < 36 }
    ensures { result ≡ (further_over values.now 0 j).number k i }
{
    values[further_place(values.len() as u64, j, k, i) as usize]
}

// The place among n numbers of number i that further candidate j gives input k.
fn further_place(n: u64, j: u64, k: u64, i: u64) -> u64
    requires some { 1 ≤ n }
    requires candidate { j < 256 }
    requires input { k < 128 }
    requires index { i < 36 }
    ensures place { result ≡ further_place n j k i }
    ensures bound { result < n }
{
    let start = (j + 1) * (j + 31) * (k + 7);
    let slope = (2 * j + 1) * (k + 3);
    let bend = j % 5;
    (start + slope * i + i * i * bend) % 10_007 % n
}
