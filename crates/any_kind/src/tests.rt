// The generic work with figures, at each kind, at pairs, at a pair in a pair and at the stranger's kind.
use super::fare::Fare;
use super::work::{bill, cheaper, site_cost};
use congestion::Congestion;
use cost::Pair;
use count::Count;
use worst_tile::WorstTile;

#[test]
fn single_kinds(rt: HostRuntime) {
    assert_eq!(rt; bill::<Congestion>(&[500, 1000]).value, 1500);
    assert_eq!(rt;
        bill::<Congestion>(&[999_999_999_999, 1]).value,
        999_999_999_999
    );
    assert_eq!(rt; bill::<Count>(&[65_534, 1, 1]).value, 65_535);
    assert_eq!(rt; bill::<WorstTile>(&[333, 500, 20]).value, 500);
    assert_eq!(rt; site_cost::<Congestion>(8, 3, 1_801_800).value, 1300);
    assert_eq!(rt; site_cost::<Count>(8, 3, 1_801_800).value, 1);
    assert_eq!(rt; site_cost::<WorstTile>(8, 3, 1_801_800).value, 500);
}

#[test]
fn count_then_congestion(rt: HostRuntime) {
    let both = bill::<Pair<Count, Congestion>>(&[(1, 500), (2, 1000)]);
    assert_eq!(rt; both.first.value, 3);
    assert_eq!(rt; both.second.value, 1500);
    let site = site_cost::<Pair<Count, Congestion>>(12, 2, 1_441_440);
    assert_eq!(rt; site.first.value, 1);
    assert_eq!(rt; site.second.value, 500);
    assert_eq!(rt; cheaper(both, site).second.value, 500);
}

#[test]
fn full_firsts_tie(rt: HostRuntime) {
    let dear = bill::<Pair<Count, Congestion>>(&[(65_535, 9)]);
    let cheap = bill::<Pair<Count, Congestion>>(&[(65_535, 1)]);
    assert_eq!(rt; cheaper(dear, cheap).second.value, 9);
}

#[test]
fn a_pair_in_a_pair(rt: HostRuntime) {
    let three = bill::<Pair<Count, Pair<Congestion, WorstTile>>>(&[
        (1, (500, 250)),
        (1, (700, 100)),
    ]);
    assert_eq!(rt; three.first.value, 2);
    assert_eq!(rt; three.second.first.value, 1200);
    assert_eq!(rt; three.second.second.value, 250);
    let other = bill::<Pair<Count, Pair<Congestion, WorstTile>>>(&[(2, (1200, 249))]);
    assert_eq!(rt; cheaper(three, other).second.second.value, 249);
    assert_eq!(rt;
        site_cost::<Pair<Count, Pair<Congestion, WorstTile>>>(4, 3, 0)
            .second
            .second
            .value,
        1000
    );
}

#[test]
fn ties_that_differ(rt: HostRuntime) {
    let fare = bill::<Fare>(&[(3, 1), (2, 7)]);
    assert_eq!(rt; fare.coins, 3);
    assert_eq!(rt; fare.stamps, 7);
    let site = site_cost::<Fare>(9, 3, 0);
    assert_eq!(rt; cheaper(site, fare).stamps, 9);
    assert_eq!(rt; cheaper(fare, site).stamps, 7);
}
