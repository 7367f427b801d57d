// The code answers the worked prices too.
use congestion::Congestion;
use cost::Pricing;

#[test]
fn site_prices(rt: HostRuntime) {
    assert_eq!(rt; Congestion::price(8, 3, 1_801_800).value, 1300);
    assert_eq!(rt; Congestion::price(5, 4, 2_594_592).value, 8600);
    assert_eq!(rt; Congestion::price(12, 2, 1_441_440).value, 500);
    assert_eq!(rt; Congestion::price(5, 0, 2_882_880).value, 1000);
}
