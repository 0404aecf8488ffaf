//! The alarms that are set, as a heap: below rank `r` stand the ranks `2 * r + 1` and `2 * r + 2`, and no alarm comes before the one above it.
//!
//! Each place has a rank, and each rank a place. The places whose alarms are set have the first ranks, the others those after them in any order: so
//! to set or clear an alarm is to let two places change their ranks, and takes no memory.
ghost use Rattle.std.specs.Prelude.{◌≡◌, ◌<◌, ◌≤◌, ◌+◌, ◌*◌, true, false, length, slice_index, slice_set, Some, None, MatchOption, EachIndex, ◌^◌};
ghost use Rattle.nt_alarms.specs.Alarms.{alarm_at};
ghost use Rattle.nt_alarms.specs.Heap.{alarms_of, alarm_ranked, above, Precedes, AreRanked, AreSwapped, IsHeap, IsHeapBut, IsHeapButAbove, IsHeapButBelow, IsFirstBelow, IsAlarmTable};

/// An alarm and its place.
#[derive(Clone, Copy)]
pub struct Alarm {
    pub moment: u64,
    pub place: usize,
}

/// The alarm of the place that has this rank.
fn ranked(moments: &[u64], places: &[u32], rank: usize) -> Alarm
    requires rank { rank < length places.now }
    requires place { slice_index places.now rank < length moments.now }
    ensures { result ≡ alarm_ranked moments.now places.now rank }
{
    let place = places[rank] as usize;
    Alarm {
        moment: moments[place],
        place,
    }
}

/// Whether the first of two alarms comes first: it is earlier, or of the same moment and at a place that is not higher.
fn precedes(first: Alarm, second: Alarm) -> bool
    ensures yes { result ≡ true → Precedes first second }
    ensures no { result ≡ false → Precedes second first }
{
    first.moment < second.moment || (first.moment == second.moment && first.place <= second.place)
}

/// Lets the places of two ranks change their ranks.
fn swap(ranks: &mut [u32], places: &mut [u32], first: usize, second: usize)
    requires few { length places.old < 2 ^ 31 }
    requires first { (first < length places.old) × (slice_index places.old first < length ranks.old) }
    requires second { (second < length places.old) × (slice_index places.old second < length ranks.old) }
    requires ranked { slice_index ranks.old (slice_index places.old first) ≡ first }
    requires ranked_too { slice_index ranks.old (slice_index places.old second) ≡ second }
    ensures lengths { (length ranks.new ≡ length ranks.old) × (length places.new ≡ length places.old) }
    ensures places { AreSwapped (slice_index places.old) (slice_index places.new) first second }
    ensures ranks { AreSwapped (slice_index ranks.old) (slice_index ranks.new)
        (slice_index places.old first) (slice_index places.old second) }
{
    let (one, other) = (places[first], places[second]);
    places[first] = other;
    places[second] = one;
    ranks[one as usize] = second as u32;
    ranks[other as usize] = first as u32;
}

/// Lets the alarm of this rank rise until none that is later stands above it.
pub fn rise(moments: &[u64], ranks: &mut [u32], places: &mut [u32], armed: usize, rank: usize)
    requires places { AreRanked moments.now ranks.old places.old }
    requires few { armed ≤ length moments.now }
    requires in_range { rank < armed }
    requires heap { IsHeapButAbove armed (alarm_ranked moments.now places.old) rank }
    ensures places { AreRanked moments.now ranks.new places.new }
    ensures heap { IsHeap armed (alarm_ranked moments.now places.new) }
    ensures same { alarms_of armed moments.now ranks.new ≡ alarms_of armed moments.now ranks.old }
{
    let mut at = rank;
    while at > 0 {
        prove!(at < armed);
        let above = (at - 1) / 2;
        if precedes(ranked(moments, places, above), ranked(moments, places, at)) {
            return;
        }
        swap(ranks, places, above, at);
        at = above;
    }
}

/// The rank of the first of the alarms below this one, if there are some.
fn first_below(moments: &[u64], places: &[u32], armed: usize, rank: usize) -> Option<usize>
    requires few { (armed ≤ length places.now) × (length places.now < 2 ^ 31) }
    requires known { EachIndex places.now (λ r. slice_index places.now r < length moments.now) }
    requires in_range { rank < armed }
    ensures { MatchOption result (armed ≤ 2 * rank + 1) (IsFirstBelow armed (alarm_ranked moments.now places.now) rank) }
{
    let left = 2 * rank + 1;
    let right = left + 1;
    if left >= armed {
        None
    } else if right < armed
        && precedes(
            ranked(moments, places, right),
            ranked(moments, places, left),
        )
    {
        Some(right)
    } else {
        Some(left)
    }
}

/// Lets the alarm of this rank sink until none that is earlier stands below it.
fn sink(moments: &[u64], ranks: &mut [u32], places: &mut [u32], armed: usize, rank: usize)
    requires places { AreRanked moments.now ranks.old places.old }
    requires few { armed ≤ length moments.now }
    requires in_range { rank < armed }
    requires heap { IsHeapButBelow armed (alarm_ranked moments.now places.old) rank }
    ensures places { AreRanked moments.now ranks.new places.new }
    ensures heap { IsHeap armed (alarm_ranked moments.now places.new) }
    ensures same { alarms_of armed moments.now ranks.new ≡ alarms_of armed moments.now ranks.old }
{
    let mut at = rank;
    while let Some(below) = first_below(moments, places, armed, at) {
        if precedes(ranked(moments, places, at), ranked(moments, places, below)) {
            return;
        }
        swap(ranks, places, at, below);
        at = below;
    }
}

/// Lets the alarm of this rank rise or sink to where it belongs.
fn settle(moments: &[u64], ranks: &mut [u32], places: &mut [u32], armed: usize, rank: usize)
    requires places { AreRanked moments.now ranks.old places.old }
    requires few { armed ≤ length moments.now }
    requires in_range { rank < armed }
    requires heap { IsHeapBut armed (alarm_ranked moments.now places.old) rank }
    ensures places { AreRanked moments.now ranks.new places.new }
    ensures heap { IsHeap armed (alarm_ranked moments.now places.new) }
    ensures same { alarms_of armed moments.now ranks.new ≡ alarms_of armed moments.now ranks.old }
{
    if rank > 0
        && precedes(
            ranked(moments, places, rank),
            ranked(moments, places, (rank - 1) / 2),
        )
    {
        rise(moments, ranks, places, armed, rank);
    } else {
        sink(moments, ranks, places, armed, rank);
    }
}

/// Sets the alarm of a place that has none.
pub fn arm(
    moments: &mut [u64],
    ranks: &mut [u32],
    places: &mut [u32],
    armed: usize,
    place: usize,
    moment: u64,
)
    requires table { IsAlarmTable armed moments.old ranks.old places.old }
    requires in_range { place < length moments.old }
    requires clear { armed ≤ slice_index ranks.old place }
    ensures table { IsAlarmTable (armed + 1) moments.new ranks.new places.new }
    ensures set { alarms_of (armed + 1) moments.new ranks.new
        ≡ slice_set (alarms_of armed moments.old ranks.old) place (Some moment) }
{
    moments[place] = moment;
    let rank = ranks[place] as usize;
    swap(ranks, places, rank, armed);
    rise(moments, ranks, places, armed + 1, armed);
}

/// Clears the alarm of a place that has one, where `left` alarms stay.
pub fn disarm(moments: &[u64], ranks: &mut [u32], places: &mut [u32], left: usize, place: usize)
    requires table { IsAlarmTable (left + 1) moments.now ranks.old places.old }
    requires in_range { place < length moments.now }
    requires set { slice_index ranks.old place ≤ left }
    ensures table { IsAlarmTable left moments.now ranks.new places.new }
    ensures cleared { alarms_of left moments.now ranks.new
        ≡ slice_set (alarms_of (left + 1) moments.now ranks.old) place None }
{
    let rank = ranks[place] as usize;
    swap(ranks, places, rank, left);
    if rank < left {
        settle(moments, ranks, places, left, rank);
    }
}

/// The moment of this place's alarm; none past the last place.
pub fn moment_of(moments: &[u64], ranks: &[u32], armed: usize, place: usize) -> Option<u64>
    requires { length ranks.now ≡ length moments.now }
    ensures { result ≡ alarm_at (alarms_of armed moments.now ranks.now) place }
{
    if place < moments.len() && (ranks[place] as usize) < armed {
        Some(moments[place])
    } else {
        None
    }
}

/// The first alarm, if one is set.
pub fn first(moments: &[u64], places: &[u32], armed: usize) -> Option<Alarm>
    requires few { armed ≤ length places.now }
    requires known { EachIndex places.now (λ r. slice_index places.now r < length moments.now) }
    ensures { MatchOption result (armed ≡ 0) (λ alarm. (alarm ≡ alarm_ranked moments.now places.now 0) × (0 < armed)) }
{
    if armed == 0 {
        None
    } else {
        Some(ranked(moments, places, 0))
    }
}
