//! Heads and an audit path of the reference tests of Certificate Transparency.

use seal_core::{HeadBuilder, audit_path, head_of_hashes, leaf_hash, root_from_path, verify_path};

// The leaves.
const LEAVES: [&[u8]; 8] = [
    b"",
    b"\x00",
    b"\x10",
    b" !",
    b"01",
    b"@ABC",
    b"PQRSTUVW",
    b"`abcdefghijklmno",
];

// The heads of the trees of the first 1 to 8 leaves.
const HEADS: [(u128, u128); 8] = [
    (
        0x6e340b9cffb37a989ca544e6bb780a2c,
        0x78901d3fb33738768511a30617afa01d,
    ),
    (
        0xfac54203e7cc696cf0dfcb42c92a1d9d,
        0xbaf70ad9e621f4bd8d98662f00e3c125,
    ),
    (
        0xaeb6bcfe274b70a14fb067a5e5578264,
        0xdb0fa9b51af5e0ba159158f329e06e77,
    ),
    (
        0xd37ee418976dd95753c1c73862b9398f,
        0xa2a2cf9b4ff0fdfe8b30cd95209614b7,
    ),
    (
        0x4e3bbb1f7b478dcfe71fb631631519a3,
        0xbca12c9aefca1612bfce4c13a86264d4,
    ),
    (
        0x76e67dadbcdf1e10e1b74ddc608abd2f,
        0x98dfb16fbce75277b5232a127f2087ef,
    ),
    (
        0xddb89be403809e325750d3d263cd7892,
        0x9c2942b7942a34b77e122c9594a74c8c,
    ),
    (
        0x5dc9da79a70659a9ad559cb701ded9a2,
        0xab9d823aad2f4960cfe370eff4604328,
    ),
];

const EMPTY_HEAD: (u128, u128) = (
    0xe3b0c44298fc1c149afbf4c8996fb924,
    0x27ae41e4649b934ca495991b7852b855,
);

// The audit path of leaf 5 of all eight.
const PATH_5: [(u128, u128); 3] = [
    (
        0xbc1a0643b12e4d2d7c77918f44e0f4f7,
        0x9a838b6cf9ec5b5c283e1f4d88599e6b,
    ),
    (
        0xca854ea128ed050b41b35ffc1b87b8eb,
        0x2bde461e9e3b5596ece6b9d5975a0ae0,
    ),
    (
        0xd37ee418976dd95753c1c73862b9398f,
        0xa2a2cf9b4ff0fdfe8b30cd95209614b7,
    ),
];

fn halves(hash: &[u8; 32]) -> (u128, u128) {
    let mut high = 0;
    let mut low = 0;
    for byte in &hash[..16] {
        high = high << 8 | u128::from(*byte);
    }
    for byte in &hash[16..] {
        low = low << 8 | u128::from(*byte);
    }
    (high, low)
}

fn hashes_of_leaves() -> [[u8; 32]; 8] {
    let mut hashes = [[0; 32]; 8];
    for i in 0..8 {
        hashes[i] = leaf_hash(LEAVES[i]);
    }
    hashes
}

#[test]
fn heads(rt: HostRuntime) {
    let hashes = hashes_of_leaves();
    let mut builder = HeadBuilder::new();
    assert!(rt; halves(&builder.head()) == EMPTY_HEAD);
    for i in 0..8 {
        assert!(rt; builder.has_room());
        builder.add(LEAVES[i]);
        assert!(rt; halves(&builder.head()) == HEADS[i]);
        assert!(rt; halves(&head_of_hashes(&hashes[..i + 1])) == HEADS[i]);
    }
    assert!(rt; builder.leaf_count() == 8);
}

#[test]
fn path_of_leaf_5(rt: HostRuntime) {
    let hashes = hashes_of_leaves();
    let Ok(path) = audit_path(rt.alloc(), &hashes, 5) else {
        panic!(rt; "out of memory");
    };
    assert!(rt; path.len() == 3);
    for i in 0..3 {
        assert!(rt; halves(&path[i]) == PATH_5[i]);
    }
    let head = head_of_hashes(&hashes);
    assert!(rt; verify_path(LEAVES[5], 5, 8, &path, &head));
    assert!(rt; !verify_path(LEAVES[4], 5, 8, &path, &head));
    assert!(rt; root_from_path(LEAVES[5], 5, 8, &path[1..]).is_none());
    assert!(rt; root_from_path(LEAVES[5], 8, 8, &path).is_none());
}
