// Links made from rows, and what they answer.
ghost use Rattle.std.specs.Prelude.{◌≡◌, ℕ, ◌<◌, ◌≤◌, ◌⊎◌, length, nat_lt, if◌then◌else◌, IfSome, Some};
ghost use Rattle.std.specs.Option.{MatchOption};
ghost use Rattle.table.specs.Held.{rows_of};
ghost use Rattle.table.specs.Linked.{case_in, link_in, taker_in};
ghost use Rattle.table.specs.Links.{bound_end_at, case_for, case_of, is_case_at, leads, taker_for, taker_of};

// (`as` loses nothing here: rows are at most 1,024.)
use super::{Links, ROOM};
use crate::row::Row;
use crate::rows::Rows;

// Whether row t is a let whose bound part ends behind row n.
fn ends_behind(rows: &Rows, t: u16, n: usize) -> bool
    ensures value { result ≡ nat_lt n (bound_end_at (rows_of rows.now) t) }
{
    matches!(rows.get(usize::from(t)), Some(Row::Let { body, .. }) if n < usize::from(body))
}

// The taker of row n, where those of the rows below are known.
fn taker_at(rows: &Rows, takers: &[Option<u16>; ROOM], n: usize) -> Option<u16>
    requires some { 0 < n }
    requires few { n < 1024 }
    requires known { (k : ℕ) → k < n → link_in takers.now k ≡ taker_of (rows_of rows.now) k }
    ensures value { result ≡ taker_of (rows_of rows.now) n }
{
    // A let below row t that binds row n binds row t too, so that of the rows below t its taker is the first that may.
    let mut t = n as u16 - 1;
    while !ends_behind(rows, t, n) {
        t = takers[usize::from(t)]?;
    }
    Some(t)
}

// Each row's taker.
fn takers_of(rows: &Rows) -> [Option<u16>; ROOM]
    ensures value { (n : ℕ) → n < length (rows_of rows.now) → link_in result n ≡ taker_of (rows_of rows.now) n }
    ensures all { (n : ℕ) → link_in result n ≡ taker_for (rows_of rows.now) n }
{
    let mut takers = [None; ROOM];
    // By number, since each taker is found from those before it. Row 0 has none, since no row is below it.
    for n in 1..rows.len() {
        takers[n] = taker_at(rows, &takers, n);
    }
    takers
}

// The row behind row n to which row n leads, and that row's case, where row n's own case is `own`.
fn lead(rows: &Rows, n: usize, own: Option<u16>) -> Option<(usize, Option<u16>)>
    requires few { n < 1024 }
    ensures to { MatchOption result ((leads (rows_of rows.now) n ≤ n) ⊎ (length (rows_of rows.now) ≤ leads (rows_of rows.now) n)) (λ p. (p.0 ≡ leads (rows_of rows.now) n) × (n < p.0) × (p.0 < length (rows_of rows.now))) }
    ensures from { IfSome result (λ p. p.1 ≡ (if is_case_at (rows_of rows.now) n then Some n else own)) }
{
    let (to, case) = match rows.get(n)? {
        Row::Case { .. } => (n + 1, Some(n as u16)),
        Row::Branch { next, .. } => (usize::from(next), own),
        _ => return None,
    };
    (n < to && to < rows.len()).then_some((to, case))
}

// Each row's case.
fn cases_of(rows: &Rows) -> [Option<u16>; ROOM]
    ensures value { (n : ℕ) → n < length (rows_of rows.now) → link_in result n ≡ case_of (rows_of rows.now) n }
    ensures all { (n : ℕ) → link_in result n ≡ case_for (rows_of rows.now) n }
{
    let mut cases = [None; ROOM];
    // By number, since a row's case is handed to a row behind it.
    for n in 0..rows.len() {
        // Of the rows below `to` that lead to it the highest counts: it comes last, and overwrites what the others said.
        if let Some((to, case)) = lead(rows, n, cases[n]) {
            cases[to] = case;
        }
    }
    cases
}

// The row that link n names.
fn link(links: &[Option<u16>; ROOM], n: usize) -> Option<usize>
    ensures value { result ≡ link_in links.now n }
{
    links.get(n).copied().flatten().map(usize::from)
}

impl Links {
    // The links of these rows.
    pub fn new(rows: &Rows) -> Links
        ensures takers { (n : ℕ) → n < length (rows_of rows.now) → taker_in result n ≡ taker_of (rows_of rows.now) n }
        ensures cases { (n : ℕ) → n < length (rows_of rows.now) → case_in result n ≡ case_of (rows_of rows.now) n }
        ensures all { ((n : ℕ) → taker_in result n ≡ taker_for (rows_of rows.now) n) × ((n : ℕ) → case_in result n ≡ case_for (rows_of rows.now) n) }
    {
        Links {
            takers: takers_of(rows),
            cases: cases_of(rows),
        }
    }

    // The innermost let whose bound part holds row n.
    pub fn taker(&self, n: usize) -> Option<usize>
        ensures value { result ≡ taker_in self.now n }
    {
        link(&self.takers, n)
    }

    // The case of the branch at row n.
    pub fn case_of(&self, n: usize) -> Option<usize>
        ensures value { result ≡ case_in self.now n }
    {
        link(&self.cases, n)
    }
}
