//! What an engineer who embeds the crates writes first, as docs/SOLVING.md and docs/DRIVER.md quote it: the folders of
//! a definition, a farm of one coordinator and two nodes over a queue, and a job to its answer.
#![tactic(auto)]

mod mounts;
mod queue;
mod solving;

/// A definition in hexadecimal: an op without inputs, and an exec op on its output 0 that has a LOCKED cache mount.
const DEFINITION: &str =
    "0a021a000a83010a490a477368613235363a6664626236366639376166303434653462383862306262306134373839663866303134663938623533663566653131313032626431396634356435336334356212360a030a017812031a012f122a08ffffffffffffffffff011a0b2f676f2f706b672f6d6f6420ffffffffffffffffff013003a2010210020a4b0a490a477368613235363a34323331616333343239303162633932356339653563363135323665326434383462373962356435646338373939313433386334656330373965393037393431";

fn main(rt: HostRuntime) -> anyhow::Result<()> {
    let alloc = rt.alloc();
    let bytes = hex::decode(alloc, DEFINITION)?;
    let folders = mounts::folders(alloc, bytes)?;
    print!(rt; "{folders}")?;
    let versions = queue::three_builds(alloc)?;
    println!(rt; "locked:apt has {versions} versions")?;
    let bytes = hex::decode(alloc, DEFINITION)?;
    let answer = solving::answer(alloc, bytes)?;
    println!(rt; "{answer}")?;
    Ok(())
}
