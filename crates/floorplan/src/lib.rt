// A floorplan, whose type names its state. One that is being entered allows only entering nets and sealing; sealing
// consumes it and gives a sealed one, which allows only planning, filing, withdrawing and asking. A floorplan holds plain
// numbers, is moved and never copied; stocks and tables are lent at each call. Fields are private: no host makes one. The
// crate promises how a floorplan in each state is a world of the law on runs, and that sealing goes on with every run. It
// uses the law's statement.
#![tactic(auto)]

pub mod states;
