//! Growths of lists, each of which gives what nothing else gives: that memory was wanted.
#![tactic(auto)]

ghost use Rattle.std.specs.Prelude.{◌≡◌, ◌+◌, ◌^◌, ◌≤◌, [], ◌∷◌, ◌++◌, length, max, replicate, IsOk, IfOk, OnOk, OnErr, string_bytes, vec_capacity};
ghost use Rattle.atomic_table.specs.Table.{opening};
ghost use Rattle.fd_memory.specs.Wanting.{Wanted};

use atomic_table::{Seat, Table, TableRule};
use smallvec::SmallVec;
use std::alloc::{AllocError, Global};
use std::sync::Arc;

/// Calls of the standard library that grow a list. Whoever proves one of them may say that memory was wanted, where it was refused; the crates above can't
/// name this trait.
trait Growth {
    ghost why: { Type 0 };

    fn room<T>(alloc: Global, count: usize) -> Result<Vec<T>, AllocError>
        ensures items { IfOk result (λ list. list.items ≡ []) }
        ensures room { IfOk result (λ list. vec_capacity list ≡ count) }
        ensures wanted { OnErr result why }
    {
        Vec::with_capacity(alloc, count)
    }

    fn filled<T: Copy>(alloc: Global, value: T, count: usize) -> Result<Vec<T>, AllocError>
        ensures items_if_clones_equal { IfOk result (λ list. ((other : T) → T.is_clone value other → other ≡ value) → list.items ≡ replicate count value) }
        ensures wanted { OnErr result why }
    {
        vec![in alloc; value; count]
    }

    fn one_more<T>(list: &mut Vec<T>) -> Result<(), AllocError>
        ensures items { list.new.items ≡ list.old.items }
        ensures room { OnOk result (length list.new.items + 1 ≤ vec_capacity list.new) }
        ensures wanted { OnErr result why }
    {
        list.reserve(1)
    }

    fn push<T: Drop>(list: &mut Vec<T>, item: T) -> Result<(), AllocError>
        ensures items { OnOk result (list.new.items ≡ list.old.items ++ item ∷ []) }
        ensures same { OnErr result (list.new.items ≡ list.old.items) }
        ensures wanted { OnErr result why }
    {
        list.push(item)?;
        Ok(())
    }

    fn append<T: Copy>(list: &mut Vec<T>, items: &[T]) -> Result<(), AllocError>
        ensures items { OnOk result (list.new.items ≡ list.old.items ++ items.now) }
        ensures same { OnErr result (list.new.items ≡ list.old.items) }
        ensures wanted { OnErr result why }
    {
        list.extend_from_slice(items)
    }

    fn push_str(text: &mut String, more: &str) -> Result<(), AllocError>
        ensures bytes { OnOk result (string_bytes text.new ≡ string_bytes text.old ++ more.now) }
        ensures same { OnErr result (string_bytes text.new ≡ string_bytes text.old) }
        ensures wanted { OnErr result why }
    {
        text.push_str(more)
    }

    fn boxed<T: Drop>(alloc: Global, value: T) -> Result<Box<T>, AllocError>
        ensures value { IfOk result (λ held. held.value ≡ value) }
        ensures wanted { OnErr result why }
    {
        Ok(Box::new(alloc, value)?)
    }

    fn shared<T: Drop>(alloc: Global, value: T) -> Result<Arc<T>, AllocError>
        ensures value { IfOk result (λ held. held.value ≡ value) }
        ensures wanted { OnErr result why }
    {
        Ok(Arc::new(alloc, value)?)
    }

    fn table<S: Drop, V, K, P: TableRule<S, V, K>>(
        alloc: Global,
        words: &[u64],
        about: &K,
    ) -> Result<(Table<S, V, K, P, Global>, Seat<S, V>), AllocError>
        requires { P.holds about.now (opening words.now [] (P.first about.now)) }
        ensures table { IfOk result (λ t. (t.0.shared.table_id.words ≡ length words.now) × (t.0.shared.table_id.slots ≡ 0)
            × (t.1.table_id ≡ t.0.shared.table_id)
            × (t.1.id ≡ 0) × (t.1.me ≡ (P.first about.now, [])) × (t.0.shared.key ≡ about.now)) }
        ensures wanted { OnErr result why }
    {
        Table::of_words(alloc, words, about)
    }

    fn beyond(count: usize, more: usize) -> AllocError
        requires { 2 ^ 64 ≤ count + more }
        ensures { why }
    {
        let (_count, _more) = (count, more);
        AllocError
    }

    ghost gives: { why };
}

struct Heap;

impl Growth for Heap {
    ghost use Rattle.fd_memory.specs.Making.{wanted};

    ghost why = { Wanted };

    ghost gives = { wanted };
}

/// An empty list with room for so many items.
pub fn room<T>(alloc: Global, count: usize) -> Result<Vec<T>, AllocError>
    ensures items { IfOk result (λ list. list.items ≡ []) }
    ensures room { IfOk result (λ list. vec_capacity list ≡ count) }
    ensures wanted { OnErr result Wanted }
{
    Heap::room(alloc, count)
}

/// The same of a list that keeps its first items in itself.
pub fn small_room<T: Default + Drop, const N: usize>(
    alloc: Global,
    count: usize,
) -> Result<SmallVec<T, N>, AllocError>
    ensures items { IfOk result (λ list. list.items ≡ []) }
    ensures room { IfOk result (λ list. list.capacity ≡ max N count) }
    ensures wanted { OnErr result Wanted }
{
    if count <= N {
        return Ok(SmallVec::new(alloc));
    }
    Ok(SmallVec::from_vec(room(alloc, count)?))
}

/// A list of so many items that are all this one.
pub fn filled<T: Copy>(alloc: Global, value: T, count: usize) -> Result<Vec<T>, AllocError>
    ensures items_if_clones_equal { IfOk result (λ list. ((other : T) → T.is_clone value other → other ≡ value) → list.items ≡ replicate count value) }
    ensures wanted { OnErr result Wanted }
{
    Heap::filled(alloc, value, count)
}

/// Room for one item more.
pub fn one_more<T>(list: &mut Vec<T>) -> Result<(), AllocError>
    ensures items { list.new.items ≡ list.old.items }
    ensures room { OnOk result (length list.new.items + 1 ≤ vec_capacity list.new) }
    ensures wanted { OnErr result Wanted }
{
    Heap::one_more(list)
}

/// What is answered in place of a record that would have to count so many items and so many more: no memory has room for them.
pub fn beyond(count: usize, more: usize) -> AllocError
    requires { 2 ^ 64 ≤ count + more }
    ensures { Wanted }
{
    Heap::beyond(count, more)
}

/// One item more, at the end.
pub fn push<T: Drop>(list: &mut Vec<T>, item: T) -> Result<(), AllocError>
    ensures items { OnOk result (list.new.items ≡ list.old.items ++ item ∷ []) }
    ensures same { OnErr result (list.new.items ≡ list.old.items) }
    ensures wanted { OnErr result Wanted }
{
    Heap::push(list, item)
}

/// These items more, at the end.
pub fn append<T: Copy>(list: &mut Vec<T>, items: &[T]) -> Result<(), AllocError>
    ensures items { OnOk result (list.new.items ≡ list.old.items ++ items.now) }
    ensures same { OnErr result (list.new.items ≡ list.old.items) }
    ensures wanted { OnErr result Wanted }
{
    Heap::append(list, items)
}

/// Asks for so many bytes at once, and gives them back: so the heap of a thread grows in one step by what it is asked for soon, and not page by page.
/// Where they are refused nothing is lost.
pub fn prime(alloc: Global, bytes: usize) -> Result<(), AllocError>
    ensures wanted { OnErr result Wanted }
{
    let _bytes: Vec<u8> = room(alloc, bytes)?;
    Ok(())
}

/// A text more, at the end of another.
pub fn push_str(text: &mut String, more: &str) -> Result<(), AllocError>
    ensures bytes { OnOk result (string_bytes text.new ≡ string_bytes text.old ++ more.now) }
    ensures same { OnErr result (string_bytes text.new ≡ string_bytes text.old) }
    ensures wanted { OnErr result Wanted }
{
    Heap::push_str(text, more)
}

/// A value in memory of its own.
pub fn boxed<T: Drop>(alloc: Global, value: T) -> Result<Box<T>, AllocError>
    ensures value { IfOk result (λ held. held.value ≡ value) }
    ensures wanted { OnErr result Wanted }
{
    Heap::boxed(alloc, value)
}

/// A value in memory of its own, for several holders.
pub fn shared<T: Drop>(alloc: Global, value: T) -> Result<Arc<T>, AllocError>
    ensures value { IfOk result (λ held. held.value ≡ value) }
    ensures wanted { OnErr result Wanted }
{
    Heap::shared(alloc, value)
}

/// A table of words, with no slot.
pub fn table<S: Drop, V, K, P: TableRule<S, V, K>>(
    alloc: Global,
    words: &[u64],
    about: &K,
) -> Result<(Table<S, V, K, P, Global>, Seat<S, V>), AllocError>
    requires { P.holds about.now (opening words.now [] (P.first about.now)) }
    ensures table { IfOk result (λ t. (t.0.shared.table_id.words ≡ length words.now) × (t.0.shared.table_id.slots ≡ 0) × (t.1.table_id ≡ t.0.shared.table_id)
        × (t.1.id ≡ 0) × (t.1.me ≡ (P.first about.now, [])) × (t.0.shared.key ≡ about.now)) }
    ensures wanted { OnErr result Wanted }
{
    Heap::table(alloc, words, about)
}
