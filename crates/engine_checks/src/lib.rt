// The five checks over a closed store. Each row that is an axiom of a check is paired with the assertions that can violate it, which
// are one chain of the index; a finding comes from one pair only, so no record is written twice.
#![tactic(auto)]

ghost use Rattle.std.specs.Prelude.{◌≡◌, ℕ, ◌+◌, ◌-◌, ◌*◌, ◌≤◌, ◌<◌, length, get_or};
ghost use Rattle.common.specs.Sizes.{finding_width, finding_limit};
ghost use Rattle.common.specs.Triples.{finding};
ghost use Rattle.common.specs.Values.{triple_of};
ghost use Rattle.store_rows.specs.Store.{Good, Small, Indexed};
ghost use Rattle.store_rows.specs.Rows.{row_graph, Reflects};
ghost use Rattle.engine_checks.specs.Pairs.{finding_of, KindOf, TypedByBoth, Reflexive, BothWays, RelatedByBoth};
ghost use Rattle.engine_checks.specs.Pairs.{OfNothing, Violates, finding_by, assertions_block, key_by, GivesWith, GivenByRows};
ghost use Rattle.engine_checks.specs.Findings.{set_finding, raised, Readable, nothing_yet, Ready, Appended, Buffer, Checks};
ghost use Rattle.engine_checks.specs.Findings.{found_of, is_over};

use common::{FINDING_WIDTH, Triple, Vocab, clear_from};
use store_rows::{OBJECTS, PREDICATES, SUBJECTS, contains, head, link, row, wide};
use store_sort::sort_rows;

// A check by the W3C name of its rule.
#[derive(Clone, Copy, PartialEq, Eq)]
pub enum CheckKind {
    CaxDw,
    PrpIrp,
    PrpAsyp,
    PrpPdw,
    ClsNothing2,
}

// A record: the check's number, then the four numbers of the findings table.
#[derive(Clone, Copy, PartialEq, Eq)]
pub struct Finding {
    pub check: u32,
    pub a: u32,
    pub b: u32,
    pub c: u32,
    pub d: u32,
}

// How many records there are, and how many of each check.
#[derive(Clone, Copy, PartialEq, Eq)]
pub struct Checked {
    pub n: usize,
    pub counts: [u32; 5],
}

// One more record did not fit: those that are there.
#[derive(Clone, Copy, PartialEq, Eq)]
pub struct TooMany {
    pub found: Checked,
}

// The check whose axiom t is, if any.
fn check_of(t: Triple) -> Option<CheckKind>
    ensures { KindOf (triple_of t) result }
{
    match (t.p, t.o) {
        (Vocab::OWL_DISJOINT_WITH, _) => Some(CheckKind::CaxDw),
        (Vocab::OWL_PROPERTY_DISJOINT_WITH, _) => Some(CheckKind::PrpPdw),
        (Vocab::RDF_TYPE, Vocab::OWL_IRREFLEXIVE_PROPERTY) => Some(CheckKind::PrpIrp),
        (Vocab::RDF_TYPE, Vocab::OWL_ASYMMETRIC_PROPERTY) => Some(CheckKind::PrpAsyp),
        (Vocab::RDF_TYPE, Vocab::OWL_NOTHING) => Some(CheckKind::ClsNothing2),
        _ => None,
    }
}

// The block of the index in whose chain of t's subject the assertions stand.
fn assertions_block(k: CheckKind) -> usize
    ensures { result ≡ assertions_block k }
{
    match k {
        CheckKind::CaxDw => OBJECTS,
        CheckKind::PrpIrp | CheckKind::PrpAsyp | CheckKind::PrpPdw => PREDICATES,
        CheckKind::ClsNothing2 => SUBJECTS,
    }
}

// The record that the axiom t and the assertion u give.
fn finding_by(k: CheckKind, t: Triple, u: Triple) -> Finding
    ensures { finding_of result ≡ finding_by k (triple_of t) (triple_of u) }
{
    match k {
        CheckKind::CaxDw => make_finding(1, u.s.0, t.s.0, t.o.0, 0),
        CheckKind::PrpIrp => make_finding(2, t.s.0, u.s.0, 0, 0),
        CheckKind::PrpAsyp => make_finding(3, t.s.0, u.s.0, u.o.0, 0),
        CheckKind::PrpPdw => make_finding(4, u.s.0, u.o.0, t.s.0, t.o.0),
        CheckKind::ClsNothing2 => make_finding(5, t.s.0, 0, 0, 0),
    }
}

// A record in one line; the checks' numbers stand in the function above only, and go into the buffer as they are.
fn make_finding(check: u32, a: u32, b: u32, c: u32, d: u32) -> Finding
    ensures { finding_of result ≡ finding check a b c d }
{
    Finding { check, a, b, c, d }
}

// c disjointWith d, i type c: whether i is an instance of d too.
fn cax_dw(store: &[u32], hash: &[u32], n: usize, t: Triple, u: Triple) -> bool
    requires { Good store.now hash.now n × Small (triple_of t) × Small (triple_of u) × (u.o.0 ≡ t.s.0) }
    ensures { Reflects (TypedByBoth (row_graph store.now n) (triple_of t) (triple_of u)) result }
{
    let v = Triple {
        s: u.s,
        p: Vocab::RDF_TYPE,
        o: t.o,
    };
    u.p == Vocab::RDF_TYPE && u.s.0 != 0 && contains(store, hash, n, v)
}

// p irreflexive: whether u is s p s.
fn prp_irp(t: Triple, u: Triple) -> bool
    requires { u.p.0 ≡ t.s.0 }
    ensures { Reflects (Reflexive (triple_of t) (triple_of u)) result }
{
    u.s == u.o && u.s.0 != 0
}

// p asymmetric, a p b: whether there is b p a.
fn prp_asyp(store: &[u32], hash: &[u32], n: usize, t: Triple, u: Triple) -> bool
    requires { Good store.now hash.now n × Small (triple_of t) × Small (triple_of u) × (u.p.0 ≡ t.s.0) }
    ensures { Reflects (BothWays (row_graph store.now n) (triple_of t) (triple_of u)) result }
{
    let v = Triple {
        s: u.o,
        p: t.s,
        o: u.s,
    };
    t.s.0 != 0 && u.s.0 != 0 && u.o.0 != 0 && contains(store, hash, n, v)
}

// p propertyDisjointWith q, a p b: whether there is a q b.
fn prp_pdw(store: &[u32], hash: &[u32], n: usize, t: Triple, u: Triple) -> bool
    requires { Good store.now hash.now n × Small (triple_of t) × Small (triple_of u) × (u.p.0 ≡ t.s.0) }
    ensures { Reflects (RelatedByBoth (row_graph store.now n) (triple_of t) (triple_of u)) result }
{
    let v = Triple {
        s: u.s,
        p: t.o,
        o: u.o,
    };
    u.s.0 != 0 && u.o.0 != 0 && t.s.0 != 0 && t.o.0 != 0 && contains(store, hash, n, v)
}

// i type Nothing: u is that row itself.
fn cls_nothing2(t: Triple, u: Triple) -> bool
    requires { u.s.0 ≡ t.s.0 }
    ensures { Reflects (OfNothing (triple_of t) (triple_of u)) result }
{
    u.p == Vocab::RDF_TYPE && u.o == Vocab::OWL_NOTHING && t.s.0 != 0
}

// Whether u violates the axiom t.
fn violates(store: &[u32], hash: &[u32], n: usize, k: CheckKind, t: Triple, u: Triple) -> bool
    requires { Good store.now hash.now n × Small (triple_of t) × Small (triple_of u) × (key_by k (triple_of u) ≡ t.s.0) }
    ensures { Reflects (Violates k (row_graph store.now n) (triple_of t) (triple_of u)) result }
{
    match k {
        CheckKind::CaxDw => cax_dw(store, hash, n, t, u),
        CheckKind::PrpIrp => prp_irp(t, u),
        CheckKind::PrpAsyp => prp_asyp(store, hash, n, t, u),
        CheckKind::PrpPdw => prp_pdw(store, hash, n, t, u),
        CheckKind::ClsNothing2 => cls_nothing2(t, u),
    }
}

// The buffer with x as its record j.
fn put_finding(findings: &mut [u32], j: usize, x: Finding)
    requires { finding_width * j + finding_width ≤ length findings.old }
    ensures { findings.new ≡ set_finding findings.old j (finding_of x) }
{
    let at = FINDING_WIDTH * j;
    findings[at] = x.check;
    findings[at + 1] = x.a;
    findings[at + 2] = x.b;
    findings[at + 3] = x.c;
    findings[at + 4] = x.d;
}

// One more of check k.
fn raise(counts: [u32; 5], k: u32) -> [u32; 5]
    requires { (1 ≤ k) × (k ≤ 5) × ((i : ℕ) → get_or counts i 0 ≤ finding_limit) }
    ensures { result ≡ raised counts k }
{
    let mut next = counts;
    let at = wide(k - 1);
    next[at] += 1;
    next
}

// Appends the record x.
fn append(findings: &mut [u32], done: Checked, x: Finding) -> Result<Checked, TooMany>
    requires { Ready findings.old done × (1 ≤ x.check) × (x.check ≤ 5) }
    ensures { Appended (λ y. y ≡ finding_of x) findings.old done findings.new (found_of result) (is_over result) }
{
    let n = done.n;
    if findings.len() < FINDING_WIDTH * n + FINDING_WIDTH {
        return Err(TooMany { found: done });
    }
    put_finding(&mut *findings, n, x);
    let counts = raise(done.counts, x.check);
    Ok(Checked { n: n + 1, counts })
}

// Appends what the axiom t gives with each row.
fn check_row(
    store: &[u32],
    hash: &[u32],
    ix: &[u32],
    n: usize,
    findings: &mut [u32],
    before: Checked,
    k: CheckKind,
    t: Triple,
) -> Result<Checked, TooMany>
    requires { Readable store.now hash.now ix.now n × Ready findings.old before × Small (triple_of t) }
    ensures { Appended (GivesWith k store.now n (triple_of t)) findings.old before findings.new (found_of result) (is_over result) }
{
    let block = assertions_block(k);
    let key = wide(t.s.0);
    let mut done = before;
    let mut cur = head(ix, block, key);
    while cur != 0 {
        let u = row(store, cur - 1);
        let next = link(ix, block, cur);
        if violates(store, hash, n, k, t, u) {
            done = append(&mut *findings, done, finding_by(k, t, u))?;
        }
        cur = next;
    }
    Ok(done)
}

// Appends what the first n rows give, from the last row to the first.
fn check_rows(
    store: &[u32],
    hash: &[u32],
    ix: &[u32],
    n: usize,
    findings: &mut [u32],
) -> Result<Checked, TooMany>
    requires { Readable store.now hash.now ix.now n × (length findings.old ≤ finding_width * finding_limit) }
    ensures { Appended (GivenByRows store.now n) findings.old nothing_yet findings.new (found_of result) (is_over result) }
{
    let mut done = Checked {
        n: 0,
        counts: [0; 5],
    };
    for i in (0..n).rev() {
        let t = row(store, i);
        if let Some(k) = check_of(t) {
            done = check_row(store, hash, ix, n, &mut *findings, done, k, t)?;
        }
    }
    Ok(done)
}

// The findings of the first n rows, sorted, then zeros; or there are more findings than records.
pub fn check(
    store: &[u32],
    hash: &[u32],
    ix: &[u32],
    n: usize,
    findings: &mut [u32],
) -> Result<Checked, TooMany>
    requires { Good store.now hash.now n × Indexed store.now n ix.now × Buffer findings.old }
    ensures { Checks store.now n findings.old (found_of result) (is_over result) findings.new }
{
    let found = check_rows(store, hash, ix, n, &mut *findings)?;
    sort_rows(&mut *findings, FINDING_WIDTH, FINDING_WIDTH, found.n);
    clear_from(&mut *findings, FINDING_WIDTH * found.n);
    Ok(found)
}
