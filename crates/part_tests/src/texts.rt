//! How a slot and a digest are shown. `printed/schedules.cases` has other texts, also cut at each byte. The digest is the
//! SHA-256 of `abc` (FIPS 180-4).

use farm_base::{Digest, Slot};
use std::alloc::Global;
use std::test::Fail;

/// A slot whose folder begins from an output.
const SLOT: &str =
    "private:a%40b@ba7816bf8f01cfea414140de5dae2223b00361a396177a9cb410ff61f20015ad.7#64";

/// A slot as it is shown.
fn slot_shown(alloc: Global, text: &str) -> Result<String, Fail> {
    let slot = Slot::parse(alloc, text)?;
    Ok(format!(in alloc; "{slot}")?)
}

#[test]
fn a_slot(rt: HostRuntime) -> Result<(), Fail> {
    let shown = slot_shown(rt.alloc(), SLOT)?;
    assert!(rt; shown.as_str() == SLOT);
    Ok(())
}

const DIGEST: &str = "sha256:ba7816bf8f01cfea414140de5dae2223b00361a396177a9cb410ff61f20015ad";

/// The same twice.
const SHOWN: &str =
    "sha256:ba7816bf8f01cfea414140de5dae2223b00361a396177a9cb410ff61f20015ad sha256:ba7816bf8f01cfea414140de5dae2223b00361a396177a9cb410ff61f20015ad";

/// A digest as it is shown, for a reader and for a programmer.
fn digest_shown(alloc: Global, text: &str) -> Result<String, Fail> {
    let digest = Digest::parse(text)?;
    Ok(format!(in alloc; "{digest} {digest:?}")?)
}

#[test]
fn a_digest(rt: HostRuntime) -> Result<(), Fail> {
    let shown = digest_shown(rt.alloc(), DIGEST)?;
    assert!(rt; shown.as_str() == SHOWN);
    Ok(())
}
