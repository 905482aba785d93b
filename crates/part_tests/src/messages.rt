//! Lines of messages: the MACs of RFC 4231, and a line that was damaged; the MACs of keys of one block and of a byte more, and that of
//! the line, are Python's (hmac). `printed/processes.cases` has the texts of messages, and other lines.

use farm_base::Key;
use farmwire::{FarmKey, Keyring, LineFault, mac, open};
use std::alloc::Global;
use std::test::Fail;

/// Key and data in hexadecimal digits, and the MAC: cases 1 to 4, 6 and 7 of RFC 4231, and keys of 64 and 65 bytes.
const MACS: [(&str, &str, &str); 8] = [
    (
        "0b0b0b0b0b0b0b0b0b0b0b0b0b0b0b0b0b0b0b0b",
        "4869205468657265",
        "b0344c61d8db38535ca8afceaf0bf12b881dc200c9833da726e9376c2e32cff7",
    ),
    (
        "4a656665",
        "7768617420646f2079612077616e7420666f72206e6f7468696e673f",
        "5bdcc146bf60754e6a042426089575c75a003f089d2739839dec58b964ec3843",
    ),
    (
        "aaaaaaaaaaaaaaaaaaaaaaaaaaaaaaaaaaaaaaaa",
        "dddddddddddddddddddddddddddddddddddddddddddddddddddddddddddddddddddddddddddddddddddddddddddddddddddd",
        "773ea91e36800e46854db8ebd09181a72959098b3ef8c122d9635514ced565fe",
    ),
    (
        "0102030405060708090a0b0c0d0e0f10111213141516171819",
        "cdcdcdcdcdcdcdcdcdcdcdcdcdcdcdcdcdcdcdcdcdcdcdcdcdcdcdcdcdcdcdcdcdcdcdcdcdcdcdcdcdcdcdcdcdcdcdcdcdcd",
        "82558a389a443c0ea4cc819899f2083a85f0faa3e578f8077a2e3ff46729665b",
    ),
    (
        "aaaaaaaaaaaaaaaaaaaaaaaaaaaaaaaaaaaaaaaaaaaaaaaaaaaaaaaaaaaaaaaaaaaaaaaaaaaaaaaaaaaaaaaaaaaaaaaaaaaaaaaaaaaaaaaaaaaaaaaaaaaaaaaaaaaaaaaaaaaaaaaaaaaaaaaaaaaaaaaaaaaaaaaaaaaaaaaaaaaaaaaaaaaaaaaaaaaaaaaaaaaaaaaaaaaaaaaaaaaaaaaaaaaaaaaaaaaaaaaaaaaaaaaaaaaaaaaaaaaaaa",
        "54657374205573696e67204c6172676572205468616e20426c6f636b2d53697a65204b6579202d2048617368204b6579204669727374",
        "60e431591ee0b67f0d8a26aacbf5b77f8e0bc6213728c5140546040f0ee37f54",
    ),
    (
        "aaaaaaaaaaaaaaaaaaaaaaaaaaaaaaaaaaaaaaaaaaaaaaaaaaaaaaaaaaaaaaaaaaaaaaaaaaaaaaaaaaaaaaaaaaaaaaaaaaaaaaaaaaaaaaaaaaaaaaaaaaaaaaaaaaaaaaaaaaaaaaaaaaaaaaaaaaaaaaaaaaaaaaaaaaaaaaaaaaaaaaaaaaaaaaaaaaaaaaaaaaaaaaaaaaaaaaaaaaaaaaaaaaaaaaaaaaaaaaaaaaaaaaaaaaaaaaaaaaaaaa",
        "5468697320697320612074657374207573696e672061206c6172676572207468616e20626c6f636b2d73697a65206b657920616e642061206c6172676572207468616e20626c6f636b2d73697a6520646174612e20546865206b6579206e6565647320746f20626520686173686564206265666f7265206265696e6720757365642062792074686520484d414320616c676f726974686d2e",
        "9b09ffa71b942fcb27635fbcd5b0e944bfdc63644f0713938a7f51535c3a35e2",
    ),
    (
        "000102030405060708090a0b0c0d0e0f101112131415161718191a1b1c1d1e1f202122232425262728292a2b2c2d2e2f303132333435363738393a3b3c3d3e3f",
        "6f662061206661726d",
        "c497f0c9b651c0bbad43d648b1b0502009207cad38be29e7b72e4f607d238399",
    ),
    (
        "000102030405060708090a0b0c0d0e0f101112131415161718191a1b1c1d1e1f202122232425262728292a2b2c2d2e2f303132333435363738393a3b3c3d3e3f40",
        "6f662061206661726d",
        "54b688e8ec2e256281a2065252ba7a6881b8b3af6ce4937bbab4867488096a56",
    ),
];

/// The digits of a MAC.
fn mac_text(alloc: Global, key: &str, data: &str) -> Result<String, Fail> {
    let key = hex::decode(alloc, key)?;
    let data = hex::decode(alloc, data)?;
    Ok(Key(mac(key.as_slice(), data.as_slice())).to_text(alloc)?)
}

#[test]
fn macs(rt: HostRuntime) -> Result<(), Fail> {
    for (key, data, wanted) in &MACS {
        let digits = mac_text(rt.alloc(), *key, *data)?;
        assert!(rt; digits.as_str() == *wanted, "{wanted}");
    }
    Ok(())
}

const KEY: &[u8] = b"the key of a farm in these tests.";

/// A line under the key that is made of it for node 3.
const LINE: &str = "hello 3 14 bd0d71b49f69525b09b0cdc7cd49a5f81f690a8c325242d03d58cc683e0f7f6b";

/// The line, of which one bit of this byte was turned.
fn damaged(alloc: Global, index: usize) -> Result<Vec<u8>, Fail> {
    let mut damaged = Vec::from_slice(alloc, LINE.as_bytes())?;
    *damaged.get_mut(index).ok_or("no such byte")? ^= 1 << (index % 8);
    Ok(damaged)
}

/// Whether the line is refused then.
fn is_refused(alloc: Global, keys: &Keyring, index: usize) -> Result<bool, Fail> {
    let line = damaged(alloc, index)?;
    Ok(matches!(open(alloc, keys, &line), Err(LineFault::BadMac)))
}

#[test]
fn turned_bits(rt: HostRuntime) -> Result<(), Fail> {
    let keys = Keyring::Farm(FarmKey::of(rt.alloc(), KEY)?);
    assert!(rt; open(rt.alloc(), &keys, LINE.as_bytes()).is_ok());
    for index in 0..LINE.len() {
        assert!(rt; is_refused(rt.alloc(), &keys, index)?, "{index}");
    }
    Ok(())
}
