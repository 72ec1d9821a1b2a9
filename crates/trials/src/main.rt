// Plays each line of standard input as a text of its own: prints the line behind `> `, and then the
// lines that it asks for.
#![tactic(auto)]

use named_listing::texts::listing;

fn run(rt: &HostRuntime) -> anyhow::Result<()> {
    let heap = rt.alloc();
    for line in rt.lines(heap) {
        let text = line?;
        println!(rt; "> {text}")?;
        print!(rt; "{}", listing(heap, text.as_bytes())?)?;
    }
    Ok(())
}

fn main(rt: HostRuntime) -> anyhow::Result<()> {
    run(&rt)
}
