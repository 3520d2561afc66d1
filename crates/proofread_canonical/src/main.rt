// Prints the second readout of a proof file, whose variables are numbered in each line by their first printed appearance: see the crate printing. It takes
// no arguments.
#![tactic(auto)]

use line_printing::report::usage;
use numbering::Naming;
use printing::arguments::has_arguments;
use printing::run;

fn main(rt: HostRuntime) {
    if has_arguments(&rt) {
        usage(&rt, Naming::ByAppearance);
        return;
    }
    run(&rt, Naming::ByAppearance);
}
