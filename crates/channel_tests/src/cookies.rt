use mt_base::Kind;
use sha2::{Digest, Sha256};
use std::test::*;
use tunnel_cookies::{IssueRefusal, Issued, Verdict, one_link};

const COOKIE: [u8; 16] = [0, 1, 2, 3, 4, 5, 6, 7, 8, 9, 10, 11, 12, 13, 14, 15];

#[test]
fn an_entry_opens_one_link(rt: HostRuntime) -> Result<(), Fail> {
    let mut issued = Issued::new(rt.alloc())?;
    assert_eq!(rt; issued.issue(7, Kind::Reliable, &COOKIE), Ok(()));
    let mut wrong = COOKIE;
    wrong[15] = 0;
    let asked = [
        (0, Kind::Reliable, 7, &wrong as &[u8], Verdict::WrongCookie),
        (0, Kind::Reliable, 7, &COOKIE, Verdict::Opened),
        (0, Kind::Reliable, 7, &COOKIE, Verdict::Again),
        (1, Kind::Reliable, 7, &COOKIE, Verdict::Spent { link: 0 }),
        (2, Kind::Lossy, 7, &COOKIE, Verdict::WrongKind),
        (2, Kind::Reliable, 8, &COOKIE, Verdict::Unknown),
    ];
    for (link, kind, id, cookie, verdict) in asked {
        assert_eq!(rt; issued.open(link, kind, id, cookie), verdict);
    }
    assert_eq!(rt;
        issued.issue(7, Kind::Lossy, &COOKIE),
        Err(IssueRefusal::Known)
    );
    one_link();
    Ok(())
}

#[test]
fn a_table_has_16_entries(rt: HostRuntime) -> Result<(), Fail> {
    let mut issued = Issued::new(rt.alloc())?;
    for id in 0..16 {
        assert_eq!(rt; issued.issue(id, Kind::Lossy, &[id as u8; 16]), Ok(()));
    }
    assert_eq!(rt;
        issued.issue(16, Kind::Lossy, &COOKIE),
        Err(IssueRefusal::TooMany { limit: 16 })
    );
    Ok(())
}

#[test]
fn an_entry_is_found_by_its_hash(rt: HostRuntime) -> Result<(), Fail> {
    let mut issued = Issued::new(rt.alloc())?;
    assert_eq!(rt; issued.issue(9, Kind::Lossy, &COOKIE), Ok(()));
    assert_eq!(rt; issued.by_hash(&Sha256::digest(COOKIE.as_slice())), Some(9));
    assert_eq!(rt; issued.by_hash(&Sha256::digest([9u8; 16].as_slice())), None);
    Ok(())
}
