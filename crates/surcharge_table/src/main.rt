// Prints the surcharge's factors as the operators' table has them: each tangent from 0 to 2,000, in thousandths, and its factor, in millionths.
#![tactic(auto)]

use park_charge::factors::FACTORS;
use std::io;

fn main(rt: HostRuntime) -> io::Result<()> {
    println!(rt; "tg,factor")?;
    for (tg, factor) in FACTORS.iter().enumerate() {
        println!(rt; "{tg},{factor}")?;
    }
    Ok(())
}
