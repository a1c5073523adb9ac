use cnf_core::Formula;
use std::io;

/// Prints the formula in the DIMACS format.
pub fn print_formula(rt: &HostRuntime, formula: &Formula) -> io::Result<()> {
    println!(rt; "p cnf {} {}", formula.vars(), formula.clauses().len())?;
    for clause in formula.clauses() {
        for lit in &clause.lits {
            print!(rt; "{} ", lit.number())?;
        }
        println!(rt; "0")?;
    }
    Ok(())
}
