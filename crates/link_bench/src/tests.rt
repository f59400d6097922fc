use super::*;
use mt_base::NoMemory;
use std::test::*;

/// What the run of these words comes to.
fn call(alloc: Global, words: &[&str]) -> Result<Result<usize, Fault>, NoMemory> {
    let mut list = Vec::new(alloc);
    for word in words {
        list.push(String::from_str(alloc, word)?)?;
    }
    Ok(run(alloc, &list))
}

#[test]
fn bytes_arrive(rt: HostRuntime) -> Result<(), Fail> {
    let rows: [(&[&str], usize); 6] = [
        (&["first", "0", "0", "9000"], 0),
        (&["first", "200500", "0", "0"], 200_500),
        (&["first", "200500", "5", "9000"], 200_500),
        (&["second", "200500", "0", "9000"], 200_500),
        (&["second", "200500", "5", "0"], 200_500),
        (&["copy", "2500", "1"], 2_500),
    ];
    for (words, count) in rows {
        assert!(rt; matches!(call(rt.alloc(), words)?, Ok(arrived) if arrived == count));
    }
    Ok(())
}

#[test]
fn nothing_arrives_where_all_is_lost(rt: HostRuntime) -> Result<(), Fail> {
    let ended = call(rt.alloc(), &["second", "1", "1", "0"])?;
    assert!(rt; matches!(ended, Err(Fault::GaveUp)));
    let ended = call(rt.alloc(), &["copy", "2500", "0"])?;
    assert!(rt; matches!(ended, Err(Fault::Wrong)));
    Ok(())
}

#[test]
fn knows_its_words(rt: HostRuntime) -> Result<(), Fail> {
    let rows: [&[&str]; 5] = [
        &[],
        &["first"],
        &["first", "1", "0"],
        &["second", "x", "0", "0"],
        &["send", "1", "0", "0"],
    ];
    for words in rows {
        assert!(rt; matches!(call(rt.alloc(), words)?, Err(Fault::Usage)));
    }
    Ok(())
}
