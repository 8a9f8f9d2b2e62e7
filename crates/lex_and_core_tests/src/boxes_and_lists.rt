//! What boxes, lists and texts hold: each call once with ample memory, and each growth refused once.

use crate::asserted::assert_all;
use containers::{Boxed, Copied, Items, Same, Text};
use std::alloc::{AllocError, Allocator, Global};
use test_memory::{Refusing, growths};

/// Whether all of these were made, and the first is equal to the second and not to the third.
fn tells_apart<T: PartialEq + Drop>(
    value: Result<T, AllocError>,
    same: Result<T, AllocError>,
    other: Result<T, AllocError>,
) -> bool {
    match (value, same, other) {
        (Ok(value), Ok(same), Ok(other)) => value == same && value != other,
        _ => false,
    }
}

/// Whether a box lends 7, and gives it back.
fn holds_seven(boxed: Boxed<u32, Global>) -> bool {
    let lent = *boxed.get() == 7 && *boxed == 7;
    boxed.into_inner() == 7 && lent
}

/// Whether a new box lends 7, and gives it back.
fn a_new_one_holds_seven(alloc: Global) -> bool {
    match Boxed::new(alloc, 7u32) {
        Ok(boxed) => holds_seven(boxed),
        Err(_) => false,
    }
}

#[test]
fn a_box_holds_its_value(rt: HostRuntime) {
    assert_all(&rt, &[("a box", a_new_one_holds_seven(rt.alloc()))]);
}

/// Whether boxes are compared by what they hold.
fn compares_boxes(alloc: Global) -> bool {
    tells_apart(
        Boxed::new(alloc, 7u32),
        Boxed::new(alloc, 7),
        Boxed::new(alloc, 8),
    )
}

/// A list of these numbers.
fn numbers(alloc: Global, all: &[u32]) -> Result<Items<u32, Global>, AllocError> {
    let mut items = Items::new(alloc);
    for number in all {
        items.push(*number)?;
    }
    Ok(items)
}

/// The items as the digits of a number.
fn digits(items: &Items<u32, Global>) -> u32 {
    let mut sum = 0u32;
    for item in items {
        sum = sum.saturating_mul(10).saturating_add(*item);
    }
    sum
}

/// Whether a list lends 3 and 1, in each way that it has.
fn lends_three_and_one(items: &Items<u32, Global>) -> bool {
    let as_slice = items.as_slice() == [3, 1].as_slice();
    let one_by_one = digits(items) == 31 && items.iter().count() == 2;
    as_slice && one_by_one && items.len() == 2 && items[1] == 1
}

/// Whether a list lends 3 and 1, and does so still where it is made anew from its `Vec`.
fn keeps_three_and_one(items: Items<u32, Global>) -> bool {
    let lent = lends_three_and_one(&items);
    let items = Items::from_vec(items.into_vec());
    lends_three_and_one(&items) && lent
}

/// Whether a new list lends 3 and 1, and does so still where it is made anew from its `Vec`.
fn a_new_one_keeps_them(alloc: Global) -> bool {
    match numbers(alloc, &[3, 1]) {
        Ok(items) => keeps_three_and_one(items),
        Err(_) => false,
    }
}

/// Whether a list without items is one.
fn none_is_empty(alloc: Global) -> bool {
    let items: Items<u32, Global> = Items::new(alloc);
    items.is_empty()
}

#[test]
fn items_keep_their_order(rt: HostRuntime) {
    assert_all(
        &rt,
        &[
            ("none", none_is_empty(rt.alloc())),
            ("two", a_new_one_keeps_them(rt.alloc())),
        ],
    );
}

/// Whether lists are compared item by item.
fn compares_lists(alloc: Global) -> bool {
    tells_apart(
        numbers(alloc, &[3, 1]),
        numbers(alloc, &[3, 1]),
        numbers(alloc, &[3]),
    )
}

/// A text that a string is moved into.
fn text_of(alloc: Global, text: &str) -> Result<Text<Global>, AllocError> {
    let text = String::from_str(alloc, text)?;
    Ok(Text::from_string(text))
}

/// Whether texts are compared by their bytes.
fn compares_texts(alloc: Global) -> bool {
    let text = "x = 2";
    tells_apart(
        Text::from_str(alloc, text),
        Text::from_str(alloc, text),
        text_of(alloc, "y"),
    )
}

#[test]
fn values_are_compared_by_what_they_hold(rt: HostRuntime) {
    assert_all(
        &rt,
        &[
            ("boxes", compares_boxes(rt.alloc())),
            ("lists", compares_lists(rt.alloc())),
            ("texts", compares_texts(rt.alloc())),
        ],
    );
}

/// Whether a text was made that lends this, and begins so.
fn lends(text: Result<Text<Global>, AllocError>, wanted: &str, begin: &str) -> bool {
    match text {
        Ok(text) => text.as_str() == wanted && text.starts_with(begin),
        Err(_) => false,
    }
}

#[test]
fn a_text_holds_its_bytes(rt: HostRuntime) {
    assert_all(
        &rt,
        &[
            (
                "of a str",
                lends(Text::from_str(rt.alloc(), "x = 2"), "x = 2", "x"),
            ),
            ("of a string", lends(text_of(rt.alloc(), "y"), "y", "")),
        ],
    );
}

/// Pushes an item, a second time where it is refused, and says whether it was; none where the list did not stay as it
/// was.
fn push_again(items: &mut Items<u32, &Refusing<Global>>, item: u32) -> Option<bool> {
    if items.push(item) != Err(AllocError) {
        return Some(false);
    }
    let unchanged = items.len() == item as usize;
    (unchanged && items.push(item).is_ok()).then_some(true)
}

/// Pushes 100 items, the next growth refused before each, and says whether one was.
fn push_each(items: &mut Items<u32, &Refusing<Global>>, alloc: &Refusing<Global>) -> Option<bool> {
    let mut refused = false;
    for item in 0..100u32 {
        alloc.refuse(1);
        refused |= push_again(items, item)?;
    }
    (items.len() == 100).then_some(refused)
}

/// Pushes 100 items to a new list, the next growth refused before each, and says whether one was.
fn push_each_to_new(alloc: &Refusing<Global>) -> Option<bool> {
    let mut items = Items::new(alloc);
    push_each(&mut items, alloc)
}

#[test]
fn a_refused_push_leaves_the_items(rt: HostRuntime) {
    let alloc = Refusing::new(rt.alloc(), 0);
    assert_all(&rt, &[("pushes", push_each_to_new(&alloc) == Some(true))]);
}

/// What the second call has made, where the first was refused.
fn made_again<T: Drop>(first: Result<T, AllocError>, second: Result<T, AllocError>) -> Option<T> {
    if first.is_err() { second.ok() } else { None }
}

/// Whether a box is refused with its one growth, and made at the next call.
fn makes_a_box_again(alloc: &Refusing<Global>) -> bool {
    let first = Boxed::new(alloc, 7u32);
    let waits = alloc.is_waiting();
    match made_again(first, Boxed::new(alloc, 7u32)) {
        Some(boxed) => *boxed.get() == 7 && !waits,
        None => false,
    }
}

/// Whether a text is refused with its one growth, and made at the next call.
fn makes_a_text_again(alloc: &Refusing<Global>) -> bool {
    match made_again(Text::from_str(alloc, "x"), Text::from_str(alloc, "x")) {
        Some(text) => text.as_str() == "x",
        None => false,
    }
}

#[test]
fn a_refused_box_or_text_is_made_at_the_next_call(rt: HostRuntime) {
    let alloc = Refusing::new(rt.alloc(), 1);
    let boxed = makes_a_box_again(&alloc);
    alloc.refuse(1);
    assert_all(
        &rt,
        &[("a box", boxed), ("a text", makes_a_text_again(&alloc))],
    );
}

/// A value that may be missing and holds a text in a box.
type MaybeText<A> = Option<Boxed<Text<A>, A>>;

/// A text in a box, where there is one.
fn boxed_text<A: Allocator + Copy>(
    alloc: A,
    text: Option<&str>,
) -> Result<MaybeText<A>, AllocError> {
    match text {
        Some(text) => {
            let text = Text::from_str(alloc, text)?;
            Ok(Some(Boxed::new(alloc, text)?))
        }
        None => Ok(None),
    }
}

type Texts<A> = Items<MaybeText<A>, A>;

/// `first`, nothing and `y`.
fn texts<A: Allocator + Copy>(alloc: A, first: &str) -> Result<Texts<A>, AllocError> {
    let mut texts = Items::new(alloc);
    for text in [Some(first), None, Some("y")] {
        texts.push(boxed_text(alloc, text)?)?;
    }
    Ok(texts)
}

/// Whether two are the same; none where one was not made.
fn are_same<T: Same + Drop>(
    one: Result<T, AllocError>,
    other: Result<T, AllocError>,
) -> Option<bool> {
    match (one, other) {
        (Ok(one), Ok(other)) => Some(one.same(&other)),
        _ => None,
    }
}

/// Whether the list that begins with `x` is the same as the one that begins with this.
fn is_same(alloc: Global, first: &str) -> Option<bool> {
    are_same(texts(alloc, "x"), texts(alloc, first))
}

/// Whether the list that begins with `x` is the same as one without items.
fn is_same_as_none(alloc: Global) -> Option<bool> {
    are_same(texts(alloc, "x"), Ok(Items::new(alloc)))
}

#[test]
fn the_same_is_what_holds_the_same(rt: HostRuntime) {
    let same = is_same(rt.alloc(), "x");
    let other = is_same(rt.alloc(), "z");
    let none = is_same_as_none(rt.alloc());
    assert_all(
        &rt,
        &[
            ("the same", same == Some(true)),
            ("another", other == Some(false)),
            ("none", none == Some(false)),
        ],
    );
}

/// Whether a copy is the same as the whole; none where it is refused.
fn copies<T: Copied<A> + Same + Drop, A: Allocator + Copy>(whole: &T, alloc: A) -> Option<bool> {
    match whole.copy(alloc) {
        Ok(copy) => Some(copy.same(whole)),
        Err(AllocError) => None,
    }
}

/// Whether a copy of texts is the same as they are; none where it is refused.
fn copies_texts<A: Allocator + Copy>(whole: &Texts<A>, alloc: A) -> Option<bool> {
    copies(whole, alloc)
}

/// Whether a copy is refused, so that the next one is made; none where a copy is not the same.
fn copies_again<A: Allocator + Copy>(whole: &Texts<A>, alloc: A) -> Option<bool> {
    match copies_texts(whole, alloc) {
        Some(same) => same.then_some(false),
        None => (copies_texts(whole, alloc) == Some(true)).then_some(true),
    }
}

/// Whether growth `nth` of a copy is told where it is refused.
fn tells(alloc: &Refusing<Global>, nth: u64) -> bool {
    match texts(alloc, "x") {
        Ok(whole) => {
            alloc.refuse(nth);
            let refused = copies_again(&whole, alloc);
            refused == Some(!alloc.is_waiting())
        }
        Err(_) => false,
    }
}

#[test]
fn each_growth_of_a_copy_is_refused_once(rt: HostRuntime) {
    // a list, two boxes and two texts
    assert_all(&rt, &[("five", growths(rt.alloc(), 100, tells) == Ok(5))]);
}
