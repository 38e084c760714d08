//! Positions in pages. Only pages in which a byte was received are allocated. Each call visits
//! pages, not single positions.
ghost use Rattle.std.specs.Prelude.{◌≡◌, ◌<◌, ◌≤◌, ◌+◌, ◌-◌, ◌/◌, ◌%◌, ◌^◌, ◌++◌, ℕ, is_some, true, length, OnOk, OnErr};
ghost use Rattle.segments.specs.Cells.{Bytes, differing, known, run};
ghost use Rattle.segments.specs.Pages.{AreWhole, IsSame, IsWritten, page, page_length, place, places};
ghost use Rattle.segments.specs.Places.{over};

use crate::page::{PAGE, Page};
use std::alloc::{AllocError, Global};
use std::collections::BTreeMap;

/// Pages by their numbers.
pub(crate) type Pages = BTreeMap<u64, Box<Page>>;

/// Returns the number of the page that has the position.
fn number_of(at: u64) -> u64
    ensures { result ≡ at / page_length }
{
    at / PAGE as u64
}

/// Returns the offset of the position within its page.
fn within_page(at: u64) -> usize
    ensures is { result ≡ at % page_length }
    ensures low { result < page_length }
{
    (at % PAGE as u64) as usize
}

/// Returns the byte at a position, if one is present.
pub(crate) fn byte_at(pages: &Pages, at: u64) -> Option<u8>
    requires { AreWhole pages.now }
    ensures { result ≡ place pages.now at }
{
    match pages.get(&number_of(at)) {
        Some(page) => page.place(within_page(at)),
        None => None,
    }
}

/// Returns how many bytes are present at `n` positions of one page.
fn count_in_page(pages: &Pages, first: u64, n: usize) -> usize
    requires whole { AreWhole pages.now }
    requires one { first % page_length + n ≤ page_length }
    ensures is { result ≡ known (places n first pages.now) }
    ensures within { result ≤ n }
{
    match pages.get(&number_of(first)) {
        Some(page) => page.known(within_page(first), n),
        None => 0,
    }
}

/// Returns how many bytes are present at `n` positions from `first` on.
pub(crate) fn count_known(pages: &Pages, first: u64, n: usize) -> usize
    requires whole { AreWhole pages.now }
    requires small { first + n < 2 ^ 64 }
    ensures is { result ≡ known (places n first pages.now) }
    ensures within { result ≤ n }
{
    let mut count = 0;
    let mut done = 0;
    while done < n {
        let at = first + done as u64;
        let most = (PAGE - within_page(at)).min(n - done);
        count += count_in_page(pages, at, most);
        done += most;
    }
    count
}

/// Returns at how many positions of one page a byte is present that differs from the given one.
fn unlike_in_page(pages: &Pages, first: u64, bytes: &[u8]) -> usize
    requires whole { AreWhole pages.now }
    requires one { first % page_length + length bytes.now ≤ page_length }
    ensures is { result ≡ differing 0 bytes.now (places (length bytes.now) first pages.now) }
    ensures within { result ≤ length bytes.now }
{
    match pages.get(&number_of(first)) {
        Some(page) => page.unlike(within_page(first), bytes),
        None => 0,
    }
}

/// Returns at how many positions from `first` on a byte is present that differs from the given one.
pub(crate) fn count_unlike(pages: &Pages, first: u64, bytes: &[u8]) -> usize
    requires whole { AreWhole pages.now }
    requires small { first + length bytes.now < 2 ^ 64 }
    ensures is { result ≡ differing 0 bytes.now (places (length bytes.now) first pages.now) }
    ensures within { result ≤ length bytes.now }
{
    let mut count = 0;
    let mut done = 0;
    while done < bytes.len() {
        let at = first + done as u64;
        let most = (PAGE - within_page(at)).min(bytes.len() - done);
        count += unlike_in_page(pages, at, &bytes[done..done + most]);
        done += most;
    }
    count
}

/// Returns the bytes at `n` positions of one page, up to the first empty one.
fn front_in_page(pages: &Pages, first: u64, n: usize) -> &[u8]
    requires whole { AreWhole pages.now }
    requires one { first % page_length + n ≤ page_length }
    ensures { result.now ≡ run (places n first pages.now) }
{
    match pages.get(&number_of(first)) {
        Some(page) => page.front(within_page(first), n),
        None => &[],
    }
}

/// Appends the bytes at `n` positions from `first` on to `out`, up to the first empty one.
pub(crate) fn append_front(
    pages: &Pages,
    first: u64,
    n: usize,
    out: &mut Vec<u8>,
) -> Result<(), AllocError>
    requires whole { AreWhole pages.now }
    requires small { first + n < 2 ^ 64 }
    ensures out { OnOk result (out.new.items ≡ out.old.items ++ run (places n first pages.now)) }
    ensures err { OnErr result ((s : Bytes) × (out.new.items ≡ out.old.items ++ s)) }
{
    let mut done = 0;
    while done < n {
        let at = first + done as u64;
        let most = (PAGE - within_page(at)).min(n - done);
        let front = front_in_page(pages, at, most);
        out.extend_from_slice(front)?;
        if front.len() < most {
            return Ok(());
        }
        done += most;
    }
    Ok(())
}

/// Appends bytes for positions of one page to `out`: the byte that is present there, or else the
/// given one.
fn append_over_page(
    pages: &Pages,
    first: u64,
    bytes: &[u8],
    out: &mut Vec<u8>,
) -> Result<(), AllocError>
    requires whole { AreWhole pages.now }
    requires one { first % page_length + length bytes.now ≤ page_length }
    ensures out { OnOk result
        (out.new.items ≡ out.old.items ++ over (places (length bytes.now) first pages.now)
        bytes.now) }
    ensures err { OnErr result ((s : Bytes) × (out.new.items ≡ out.old.items ++ s)) }
{
    match pages.get(&number_of(first)) {
        Some(page) => page.append_over(within_page(first), bytes, out)?,
        None => out.extend_from_slice(bytes)?,
    }
    Ok(())
}

/// Appends bytes for the positions from `first` on to `out`, but a byte that is present in place of
/// the given one.
pub(crate) fn append_over(
    pages: &Pages,
    first: u64,
    bytes: &[u8],
    out: &mut Vec<u8>,
) -> Result<(), AllocError>
    requires whole { AreWhole pages.now }
    requires small { first + length bytes.now < 2 ^ 64 }
    ensures out { OnOk result
        (out.new.items ≡ out.old.items ++ over (places (length bytes.now) first pages.now)
        bytes.now) }
    ensures err { OnErr result ((s : Bytes) × (out.new.items ≡ out.old.items ++ s)) }
{
    let mut done = 0;
    while done < bytes.len() {
        let at = first + done as u64;
        let most = (PAGE - within_page(at)).min(bytes.len() - done);
        append_over_page(pages, at, &bytes[done..done + most], out)?;
        done += most;
    }
    Ok(())
}

/// Allocates the page with this number, unless it exists.
fn make_page(alloc: Global, pages: &mut Pages, number: u64) -> Result<(), AllocError>
    requires { AreWhole pages.old }
    ensures same { IsSame pages.old pages.new }
    ensures made { OnOk result (is_some (page pages.new number) ≡ true) }
{
    if pages.contains_key(&number) {
        return Ok(());
    }
    let page = Box::new(alloc, Page::new())?;
    pages.insert(number, page)?;
    Ok(())
}

/// Allocates the pages of the positions from `first` to `last`.
pub(crate) fn make_pages(
    alloc: Global,
    pages: &mut Pages,
    first: u64,
    last: u64,
) -> Result<(), AllocError>
    requires { AreWhole pages.old }
    ensures same { IsSame pages.old pages.new }
    ensures made { OnOk result
        ((j : ℕ) → first ≤ j → j ≤ last → is_some (page pages.new (j / page_length)) ≡ true) }
{
    for number in number_of(first)..number_of(last) + 1 {
        make_page(alloc, pages, number)?;
    }
    Ok(())
}

/// Writes bytes to the empty positions of one page, and returns how many it wrote.
fn write_in_page(pages: &mut Pages, at: u64, bytes: &[u8]) -> usize
    requires whole { AreWhole pages.old }
    requires there { is_some (page pages.old (at / page_length)) ≡ true }
    requires one { at % page_length + length bytes.now ≤ page_length }
    ensures written { IsWritten at bytes.now pages.old pages.new result }
    ensures within { result ≤ length bytes.now }
{
    let Some(page) = pages.get_mut(&number_of(at)) else {
        return 0;
    };
    page.write(within_page(at), bytes)
}

/// Writes bytes to the empty positions from `at` on, and returns how many it wrote.
pub(crate) fn write_bytes(pages: &mut Pages, at: u64, bytes: &[u8]) -> usize
    requires whole { AreWhole pages.old }
    requires there { (j : ℕ) → at ≤ j → j < at + length bytes.now
        → is_some (page pages.old (j / page_length)) ≡ true }
    requires small { at + length bytes.now < 2 ^ 64 }
    ensures { IsWritten at bytes.now pages.old pages.new result }
{
    let mut count = 0;
    let mut done = 0;
    while done < bytes.len() {
        let place = at + done as u64;
        let most = (PAGE - within_page(place)).min(bytes.len() - done);
        count += write_in_page(pages, place, &bytes[done..done + most]);
        done += most;
    }
    count
}

/// Frees the pages whose positions are all before `end`.
pub(crate) fn remove_pages(pages: &mut Pages, first: u64, end: u64)
    requires { AreWhole pages.old }
    ensures whole { AreWhole pages.new }
    ensures places { (j : ℕ) → end ≤ j → place pages.new j ≡ place pages.old j }
{
    for number in number_of(first)..number_of(end) {
        pages.remove(&number);
    }
}
