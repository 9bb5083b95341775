// What the check asks of each row before its children: one call for each kind of row, conditions by rising number. An operand
// that no condition looks at is no argument, and 0 in the contract. (Operands go on as they are: a struct of them would be the
// row again. Conditions are joined with `&` and `|` here and elsewhere: no branch, and so one way through for the proof.)
ghost use Rattle.std.specs.Prelude.{◌≡◌, ◌<◌, ◌≤◌, ◌&&◌, ◌||◌, ◌==◌, true, false, Some, IfOk, IfSome};
ghost use Rattle.table.specs.declared.row.Row.TheVariants as row;
ghost use Rattle.table.specs.Table.{told};
ghost use Rattle.std.specs.List.{slice_get};
ghost use Rattle.packed.specs.Forms.{either};
ghost use Rattle.checker.specs.declared.context.Rule.TheVariants as rule;
ghost use Rattle.checker.specs.Contexts.{at, fresh, used, all_fresh, is_at, region_of, frontier_at, parts};
ghost use Rattle.checker.specs.Conditions.{all_have, all_used, four_integers, chained, advanced, covers, construct_names, construct_kinds, construct_places, call_names, call_kinds, call_places};
ghost use Rattle.checker.specs.Described.{program_of};
ghost use Rattle.checker.specs.Verdict.{asked, by_number, home_of};

use crate::context::compare::is_at;
use crate::context::{Context, Frontier, Rule};
use crate::descent::{Descent, RowAt};
use crate::kind::{INTEGER, Kind};
use crate::names::{are_fresh, is_fresh};
use packed::{Constructor, Fault, Reason};
use table::{Function, Row};

// How many parts a tree of a constructor has.
pub fn parts_of(form: &Constructor) -> usize
    ensures value { result ≡ parts form.now }
    ensures bound { result < 65536 }
{
    usize::from(form.fields.integers) + usize::from(form.fields.subtrees)
}

// Whether the trees among a construct's variables stand one behind the other from behind its head on, up to the frontier.
fn is_chain(form: &Constructor, l: u16, variables: &[u8; 8], cx: &Context) -> bool
    requires { (form.now.fields.integers ≤ 4) × (form.now.fields.subtrees ≤ 4) }
    ensures value { result ≡ either (chained cx.now (rule.Past l form.now.fields.integers) l variables.now form.now.fields.integers form.now.fields.subtrees) false (λ m. is_at m (frontier_at cx.now l)) }
{
    let k = form.fields.integers;
    let first = usize::from(k);
    let trees = &variables[first..first + usize::from(form.fields.subtrees)];
    let last = cx.last_of_chain(Rule::Past { m: l, k }, l, trees);
    last.is_some_and(|m| is_at(cx.frontier_at(l), m))
}

// Whether a construct's variables have the kinds of its parts.
fn have_parts(form: &Constructor, variables: &[u8; 8], cx: &Context) -> bool
    ensures value { result ≡ (all_have cx.now variables.now 0 four_integers 0 form.now.fields.integers && all_have cx.now variables.now form.now.fields.integers form.now.fields.types 0 form.now.fields.subtrees) }
{
    let integers = usize::from(form.fields.integers);
    let subtrees = usize::from(form.fields.subtrees);
    cx.have_kinds(variables, 0, &[INTEGER; 4], integers)
        & cx.have_kinds(variables, integers, &form.fields.types, subtrees)
}

// Whether the parts of a branch's tree can come into scope, from variable x and location l on.
fn are_parts_fresh(form: &Constructor, x: u8, l: u8, cx: &Context) -> bool
    ensures value { result ≡ (all_fresh cx.now.variables x 0 (parts form.now) && all_fresh cx.now.locations l 0 form.now.fields.subtrees) }
{
    let subtrees = usize::from(form.fields.subtrees);
    are_fresh(&cx.variables, usize::from(x), parts_of(form))
        & are_fresh(&cx.locations, usize::from(l), subtrees)
}

// Whether the names of a call of this function are in scope, that of its result too.
fn are_call_names(function: &Function, l: u16, variables: &[u8; 4], cx: &Context) -> bool
    ensures value { result ≡ (all_used cx.now variables.now 0 function.now.parameters && (function.now.result == 254 || used cx.now.locations l)) }
{
    cx.are_used(variables, usize::from(function.parameters))
        & ((function.result == INTEGER) | cx.is_located(l))
}

impl<'a> Descent<'a> {
    // The branch due behind constructor i, where row b is due; none where i is of type t and row b is not its branch. (0 is no
    // branch, as the row and `covers` have it: an Option within the answer's Option is no plainer.)
    fn advance(&self, t: u8, i: usize, f: &Constructor, b: usize) -> Option<usize>
        ensures value { result ≡ advanced (program_of self.now).rows t i f.now b }
    {
        if f.of != t {
            return Some(b);
        }
        let Some(Row::Branch { form, next, .. }) = self.rows.get(b) else {
            return None;
        };
        (usize::from(form) == i).then_some(usize::from(next))
    }

    // Whether the branches from row `first` on are those of the constructors of type t, one each and in order.
    fn are_branches(&self, t: u8, first: usize) -> bool
        ensures value { result ≡ covers (program_of self.now).rows t 0 (program_of self.now).forms first }
    {
        let forms = self.shapes.forms();
        let mut b = first;
        for (i, f) in forms.iter().enumerate() {
            let Some(next) = self.advance(t, i, f, b) else {
                return false;
            };
            b = next;
        }
        b == 0
    }
}

impl<'a> RowAt<'a> {
    // A sum, and likewise a difference or a test.
    pub fn ask_integers(&self, x: u8, y: u8, cx: &Context) -> Result<(), Fault>
        ensures value { result ≡ asked (program_of self.now.program.now) cx.now self.now.at (row.Sum x y) }
    {
        self.ask(cx.is_used(x) & cx.is_used(y), Reason::Scope)?;
        self.ask(cx.are_integers(x, y), Reason::Kind)
    }

    pub fn ask_region(&self, r: u8, cx: &Context) -> Result<(), Fault>
        ensures value { result ≡ asked (program_of self.now.program.now) cx.now self.now.at (row.Region r 0) }
    {
        let fresh = is_fresh(&cx.progress.frontiers, usize::from(r));
        self.ask(fresh, Reason::Scope)
    }

    pub fn ask_start(&self, l: u8, r: u8, cx: &Context) -> Result<(), Fault>
        ensures value { result ≡ asked (program_of self.now.program.now) cx.now self.now.at (row.Start l r) }
    {
        let frontier = cx.progress.frontier(Some(r));
        let fresh = is_fresh(&cx.locations, usize::from(l));
        self.ask(fresh & frontier.is_some(), Reason::Scope)?;
        self.ask(frontier == Some(Frontier::Nothing), Reason::LocationRule)
    }

    // A location l that is got from m, where its rule lets it.
    fn ask_behind(&self, l: u8, m: u16, rule: bool, cx: &Context) -> Result<(), Fault>
        ensures value { result ≡ by_number self.now.at (fresh cx.now.locations l && used cx.now.locations m) true rule true }
    {
        let fresh = is_fresh(&cx.locations, usize::from(l));
        self.ask(fresh & cx.is_located(m), Reason::Scope)?;
        self.ask(rule, Reason::LocationRule)
    }

    pub fn ask_past(&self, l: u8, m: u16, cx: &Context) -> Result<(), Fault>
        ensures value { result ≡ asked (program_of self.now.program.now) cx.now self.now.at (row.Past l m 0) }
    {
        let rule = cx.progress.is_unwritten(m) & is_at(cx.frontier_at(m), m);
        self.ask_behind(l, m, rule, cx)
    }

    pub fn ask_after(&self, l: u8, m: u16, t: u8, cx: &Context) -> Result<(), Fault>
        ensures value { result ≡ asked (program_of self.now.program.now) cx.now self.now.at (row.After l m t) }
    {
        let rule = is_at(cx.frontier_at(m), m) & cx.has_tree(t, m);
        self.ask_behind(l, m, rule, cx)
    }

    // A construct, which is answered its constructor.
    pub fn ask_construct(
        &self,
        form: u8,
        l: u16,
        variables: &[u8; 8],
        cx: &Context,
    ) -> Result<Constructor, Fault>
        ensures asked { told result ≡ by_number self.now.at (construct_names (program_of self.now.program.now) cx.now form l variables.now) (construct_kinds (program_of self.now.program.now) cx.now form variables.now) true (construct_places (program_of self.now.program.now) cx.now form l variables.now) }
        ensures found { IfOk result (λ f. slice_get (program_of self.now.program.now).forms form ≡ Some f) }
    {
        let known = self.program.shapes.constructor(form);
        let used = known.is_none_or(|f| cx.are_used(variables, parts_of(&f)));
        self.ask(cx.is_located(l) & used, Reason::Scope)?;
        let f = known.ok_or(self.fault(Reason::Kind))?;
        self.ask(have_parts(&f, variables, cx), Reason::Kind)?;
        let behind = is_chain(&f, l, variables, cx);
        self.ask(cx.progress.is_unwritten(l) & behind, Reason::Unwritten)?;
        Ok(f)
    }

    pub fn ask_let(&self, x: u8, t: u8, l: u16, cx: &Context) -> Result<(), Fault>
        ensures value { result ≡ asked (program_of self.now.program.now) cx.now self.now.at (row.Let x t l 0) }
    {
        let integer = t == INTEGER;
        let fresh = is_fresh(&cx.variables, usize::from(x));
        self.ask(fresh & (integer | cx.is_located(l)), Reason::Scope)?;
        self.ask(integer | cx.progress.is_unwritten(l), Reason::Unwritten)
    }

    // A call, which is answered its function.
    pub fn ask_call(
        &self,
        g: u8,
        l: u16,
        variables: &[u8; 4],
        cx: &Context,
    ) -> Result<Function, Fault>
        ensures asked { told result ≡ by_number self.now.at (call_names (program_of self.now.program.now) cx.now g l variables.now) (call_kinds (program_of self.now.program.now) cx.now g variables.now) true (call_places (program_of self.now.program.now) cx.now g l) }
        ensures found { IfOk result (λ f. slice_get (program_of self.now.program.now).functions g ≡ Some f) }
    {
        let known = self.program.functions.get(usize::from(g));
        let named = known.is_none_or(|f| are_call_names(&f, l, variables, cx));
        self.ask(named, Reason::Scope)?;
        let f = known.ok_or(self.fault(Reason::Kind))?;
        let count = usize::from(f.parameters);
        self.ask(cx.have_kinds(variables, 0, &f.kinds, count), Reason::Kind)?;
        let place = cx.progress.is_unwritten(l) & is_at(cx.frontier_at(l), l);
        self.ask((f.result == INTEGER) | place, Reason::Unwritten)?;
        Ok(f)
    }

    // A case, which is answered where its tree lies.
    pub fn ask_case(&self, x: u8, cx: &Context) -> Result<u16, Fault>
        ensures asked { told result ≡ asked (program_of self.now.program.now) cx.now self.now.at (row.Case x) }
        ensures found { IfOk result (λ l. home_of (program_of self.now.program.now) cx.now (at cx.now.variables x) ≡ region_of cx.now l) }
    {
        match cx.variable(x).ok_or(self.fault(Reason::Scope))? {
            Kind::Tree { of, at } if self.program.are_branches(of, self.at + 1) => Ok(at),
            _ => Err(self.fault(Reason::Kind)),
        }
    }

    // A branch, which is answered its constructor, if there is one.
    pub fn ask_branch(
        &self,
        form: u8,
        x: u8,
        l: u8,
        cx: &Context,
    ) -> Result<Option<Constructor>, Fault>
        ensures asked { told result ≡ asked (program_of self.now.program.now) cx.now self.now.at (row.Branch form x l 0) }
        ensures found { IfOk result (λ f. f ≡ slice_get (program_of self.now.program.now).forms form) }
        ensures few { IfOk result (λ f. IfSome f (λ g. (g.fields.integers ≤ 4) × (g.fields.subtrees ≤ 4))) }
    {
        let known = self.program.shapes.constructor(form);
        let fresh = known.is_none_or(|f| are_parts_fresh(&f, x, l, cx));
        self.ask(fresh, Reason::Scope)?;
        Ok(known)
    }
}
