//! Texts and lists whose copies share what they hold.

use super::pairs;
use pyd_value::{List, NoMemory, Text, Value, same, try_copy};
use std::test::Fail;

// A value that threads may hand to each other and share.
fn across_threads<T: Send + Sync>(value: T) -> T {
    value
}

#[test]
fn copies_of_texts_tell_their_characters(rt: HostRuntime) -> Result<(), Fail> {
    for (word, ascii, codes) in &pairs::WORDS {
        let text = Text::from_string(rt.alloc(), String::from_str(rt.alloc(), *word)?)?;
        let copy = text.try_clone()?;
        drop(text);
        assert_eq!(rt;
            (copy.as_str(), copy.count(), copy.is_ascii()),
            (*word, codes.len(), *ascii)
        );
        for (at, code) in codes.iter().enumerate() {
            assert_eq!(rt;
                copy.get(at),
                char::from_u32(*code),
                "character {at} of {word}"
            );
        }
        assert_eq!(rt; copy.get(codes.len()), None);
    }
    Ok(())
}

#[test]
fn a_shared_list_takes_no_more(rt: HostRuntime) -> Result<(), Fail> {
    let mut list = List::from_vec(rt.alloc(), vec![in rt.alloc(); 1u32, 2]?)?;
    assert!(rt; list.push(3).is_ok());
    let mut copy = list.try_clone()?;
    assert_eq!(rt;
        (list.push(4), list.as_slice()),
        (Err((4, NoMemory)), &[1, 2, 3][..])
    );
    assert_eq!(rt;
        (copy.add(4), copy.as_slice()),
        (Err(NoMemory), &[1, 2, 3][..])
    );
    drop(list);
    assert_eq!(rt;
        (copy.push(4), copy.as_slice()),
        (Ok(()), &[1, 2, 3, 4][..])
    );
    Ok(())
}

#[test]
fn a_copied_tuple_outlives_its_source(rt: HostRuntime) -> Result<(), Fail> {
    let mut members = List::new(rt.alloc());
    members.add(Value::Text(Text::of(rt.alloc(), "a")?))?;
    let tuple = across_threads(Value::Tuple(members));
    let copy = try_copy(rt.alloc(), &tuple)?;
    let again = try_copy(rt.alloc(), &copy)?;
    drop(tuple);
    assert!(rt; same(&copy, &again));
    Ok(())
}
