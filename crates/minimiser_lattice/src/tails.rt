//! The components of the tails: what is reached from a start, and what reaches an end, read off the transitive closure
//! of the components' order.

ghost use Rattle.std.specs.Prelude.{◌≡◌, ◌≢◌, ◌⊎◌, ℕ, ◌<◌, ◌≤◌, ◌||◌, length, true, false};
ghost use Rattle.exchange_graph.specs.Marks.{members_of};
ghost use Rattle.bit_table.specs.Bits.{bit_in};
ghost use Rattle.minimiser_lattice.specs.Paths.{IsNumbering};
ghost use Rattle.minimiser_lattice.specs.Components.{HasArrays, leads_in, component_number, component_places};
ghost use Rattle.minimiser_lattice.specs.Listings.{IsFirstTail, IsLastTail};

use crate::components::Components;

// Marks component `from` and each one that it leads to.
fn mark_below(marks: &mut [bool], components: &Components, from: usize)
    requires stored { HasArrays components.now }
    requires marks { length marks.old ≡ component_places components.now }
    requires from { from < component_places components.now }
    requires count { components.now.count ≤ component_places components.now }
    ensures marked { (k : ℕ) → k < components.now.count → members_of marks.new k
        ≡ (members_of marks.old k || leads_in (bit_in components.now.strict) from k) }
    ensures length { length marks.new ≡ length marks.old }
{
    marks[from] = true;
    let mut at = 0;
    while let Some(k) = components.strict.next(from, at, components.count) {
        marks[k] = true;
        at = k + 1;
    }
}

/// Marks the components that a start leads to. What a marked component leads to is marked already.
pub fn mark_starts(marks: &mut [bool], components: &Components, starts: &[bool])
    requires stored { HasArrays components.now }
    requires marks { length marks.old ≡ component_places components.now }
    requires starts { length starts.now ≡ component_places components.now }
    requires numbering { IsNumbering (component_places components.now) (component_number components.now)
        components.now.count
        (bit_in components.now.strict) }
    requires none { (k : ℕ) → k < components.now.count → members_of marks.old k ≡ false }
    ensures tail { IsFirstTail (component_places components.now) (component_number components.now) components.now.count
        (bit_in components.now.strict) (members_of starts.now) (members_of marks.new) }
    ensures length { length marks.new ≡ length marks.old }
{
    for (place, is_start) in starts.iter().enumerate() {
        let from = components.number[place];
        if *is_start && !marks[from] {
            mark_below(marks, components, from);
        }
    }
}

// Marks the components of the ends.
fn mark_own(marks: &mut [bool], components: &Components, ends: &[bool])
    requires stored { HasArrays components.now }
    requires marks { length marks.old ≡ component_places components.now }
    requires ends { length ends.now ≡ component_places components.now }
    requires numbers { (x : ℕ) → x < component_places components.now → component_number components.now x <
        component_places components.now }
    ensures some { (k : ℕ) → members_of marks.old k ≡ false → members_of marks.new k ≡ true →
        (x : ℕ) × (x < component_places components.now) × (members_of ends.now x ≡ true) ×
        (component_number components.now x ≡ k) }
    ensures made { (x : ℕ) → x < component_places components.now → members_of ends.now x ≡ true →
        members_of marks.new (component_number components.now x) ≡ true }
    ensures length { length marks.new ≡ length marks.old }
{
    for (place, is_end) in ends.iter().enumerate() {
        if *is_end {
            marks[components.number[place]] = true;
        }
    }
}

// Whether component k leads to a marked one.
fn leads_to_marked(marks: &[bool], components: &Components, k: usize) -> bool
    requires stored { HasArrays components.now }
    requires marks { length marks.now ≡ component_places components.now }
    requires k { k < component_places components.now }
    ensures some { result ≡ true → (l : ℕ) × (l < k) × (bit_in components.now.strict k l ≡ true)
        × (members_of marks.now l ≡ true) }
    ensures none { result ≡ false → (l : ℕ) → l < k → bit_in components.now.strict k l ≡ true →
        members_of marks.now l ≡ false }
{
    let mut from = 0;
    while let Some(l) = components.strict.next(k, from, k) {
        if marks[l] {
            return true;
        }
        from = l + 1;
    }
    false
}

// Marks component k, if it leads to a marked one.
fn mark_above(marks: &mut [bool], components: &Components, k: usize)
    requires stored { HasArrays components.now }
    requires marks { length marks.old ≡ component_places components.now }
    requires k { k < component_places components.now }
    ensures some { members_of marks.new k ≡ true → (members_of marks.old k ≡ true) ⊎ ((l : ℕ) × (l < k)
        × (bit_in components.now.strict k l ≡ true) × (members_of marks.old l ≡ true)) }
    ensures none { members_of marks.new k ≡ false → (l : ℕ) → l < k → bit_in components.now.strict k l ≡ true →
        members_of marks.old l ≡ false }
    ensures kept { (j : ℕ) → members_of marks.old j ≡ true → members_of marks.new j ≡ true }
    ensures others { (j : ℕ) → j ≢ k → members_of marks.new j ≡ members_of marks.old j }
    ensures length { length marks.new ≡ length marks.old }
{
    if leads_to_marked(marks, components, k) {
        marks[k] = true;
    }
}

/// Marks the components that lead to an end. One that leads to a marked one is marked after it, since its number is
/// greater.
pub fn mark_ends(marks: &mut [bool], components: &Components, ends: &[bool])
    requires stored { HasArrays components.now }
    requires marks { length marks.old ≡ component_places components.now }
    requires ends { length ends.now ≡ component_places components.now }
    requires numbering { IsNumbering (component_places components.now) (component_number components.now)
        components.now.count
        (bit_in components.now.strict) }
    requires none { (k : ℕ) → k < components.now.count → members_of marks.old k ≡ false }
    ensures tail { IsLastTail (component_places components.now) (component_number components.now) components.now.count
        (bit_in components.now.strict) (members_of ends.now) (members_of marks.new) }
    ensures length { length marks.new ≡ length marks.old }
{
    mark_own(marks, components, ends);
    for k in 0..components.count {
        mark_above(marks, components, k);
    }
}
