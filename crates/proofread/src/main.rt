// Prints the readout of a proof file: see the crate printing. It takes no arguments.
#![tactic(auto)]

use line_printing::report::usage;
use numbering::Naming;
use printing::arguments::has_arguments;
use printing::run;

fn main(rt: HostRuntime) {
    if has_arguments(&rt) {
        usage(&rt, Naming::ByIndex);
        return;
    }
    run(&rt, Naming::ByIndex);
}
