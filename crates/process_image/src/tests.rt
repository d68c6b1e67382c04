//! Images that run: worked examples, empty parts at both ends, and two threads that read.
ghost use Rattle.std.specs.Prelude.{◌≡◌, ◌+◌, ◌<◌, ◌≤◌, ◌^◌, length};
ghost use Rattle.process_image.specs.Bytes.{with_part};
ghost use Rattle.process_image.specs.Spans.{IsWalk};

use crate::{Image, Scalar, Span};
use std::test::Fail;
use std::thread::{Threads, join};

// A caller that writes a part learns what the image holds.
fn write(image: &mut Image, at: u32, bytes: &[u8])
    requires within { at + length bytes.now ≤ length image.old }
    requires small { length bytes.now < 2 ^ 32 }
    ensures { image.new ≡ with_part image.old at (length bytes.now) bytes.now }
{
    image
        .part_mut(Span {
            at,
            len: bytes.len() as u32,
        })
        .copy_from_slice(bytes);
}

// A caller that sets a cell learns it too.
fn set_word(image: &mut Image, at: u32, word: u16)
    requires { at + 2 ≤ length image.old }
    ensures { length image.new ≡ length image.old }
{
    image.cell::<u16>(at).set(word);
}

fn fill_parts(image: &mut Image, spans: &[Span], byte: u8)
    requires { IsWalk spans.now 0 (length image.old) }
{
    let mut parts = image.parts_mut(spans);
    for _ in 0..spans.len() {
        parts.next().fill(byte);
    }
}

fn all(image: &Image) -> &[u8] {
    image.part(Span {
        at: 0,
        len: image.len(),
    })
}

#[test]
fn signed_cell_in_the_image(rt: HostRuntime) -> Result<(), Fail> {
    let mut image = Image::new(rt.alloc(), 16)?;
    image.cell::<i32>(3).set(-2);
    let bytes = [0, 0, 0, 0xfe, 0xff, 0xff, 0xff, 0, 0, 0, 0, 0, 0, 0, 0, 0];
    assert_eq!(rt; all(&image), bytes.as_slice());
    assert_eq!(rt; image.cell::<i32>(3).get(), -2);
    write(&mut image, 14, &[7, 8]);
    assert_eq!(rt; image.cell::<u16>(14).get(), 0x0807);
    set_word(&mut image, 0, 0x0102);
    assert_eq!(rt; image.part(Span { at: 0, len: 3 }), [2, 1, 0].as_slice());
    Ok(())
}

#[test]
fn each_kind_of_number_is_read_as_it_was_set(rt: HostRuntime) -> Result<(), Fail> {
    let mut image = Image::new(rt.alloc(), 8)?;
    image.cell::<u8>(7).set(0x80);
    assert_eq!(rt; image.cell::<u8>(7).get(), 0x80);
    assert_eq!(rt; image.cell::<i8>(7).get(), -128);
    assert_eq!(rt; image.cell::<i16>(6).get(), -32768);
    image.cell::<i64>(0).set(-2);
    assert_eq!(rt; image.cell::<u64>(0).get(), u64::MAX - 1);
    assert_eq!(rt; image.cell::<i64>(0).get(), -2);
    image.cell::<u32>(4).set(0x0102_0304);
    assert_eq!(rt;
        all(&image),
        [0xfe, 0xff, 0xff, 0xff, 4, 3, 2, 1].as_slice()
    );
    image.cell::<i16>(0).set(-256);
    assert_eq!(rt; image.cell::<u16>(0).get(), 0xff00);
    let mut two = [0; 2];
    i16::store(-3, &mut two);
    assert_eq!(rt; two, [0xfd, 0xff]);
    assert_eq!(rt; u16::load(&two), 0xfffd);
    Ok(())
}

#[test]
fn walk_over_three_parts(rt: HostRuntime) -> Result<(), Fail> {
    let mut image = Image::new(rt.alloc(), 8)?;
    let spans = [
        Span { at: 0, len: 2 },
        Span { at: 2, len: 0 },
        Span { at: 5, len: 3 },
    ];
    fill_parts(&mut image, &spans, 0xaa);
    let bytes = [0xaa, 0xaa, 0, 0, 0, 0xaa, 0xaa, 0xaa];
    assert_eq!(rt; all(&image), bytes.as_slice());
    Ok(())
}

#[test]
fn image_of_no_bytes(rt: HostRuntime) -> Result<(), Fail> {
    let mut image = Image::new(rt.alloc(), 0)?;
    assert_eq!(rt; image.len(), 0);
    assert_eq!(rt; image.part_mut(Span { at: 0, len: 0 }).len(), 0);
    fill_parts(&mut image, &[Span { at: 0, len: 0 }], 1);
    assert!(rt; image.parts_mut(&[]).is_over());
    Ok(())
}

#[test]
fn greatest_image_is_zeros(rt: HostRuntime) -> Result<(), Fail> {
    let image = Image::new(rt.alloc(), 4_194_304)?;
    assert_eq!(rt; image.len(), 4_194_304);
    assert!(rt; all(&image).iter().all(|&byte| byte == 0));
    Ok(())
}

// Two threads look at the same bytes at once.
fn read_by_two(rt: &(impl Threads + Sync), image: &Image) -> (Option<i32>, Option<i32>) {
    join(rt, || number_at(image, 3), || number_at(image, 3))
}

fn number_at(image: &Image, at: u32) -> Option<i32> {
    if image.len() < 4 || at > image.len() - 4 {
        return None;
    }
    Some(i32::load(image.part(Span { at, len: 4 })))
}

#[test]
fn two_threads_read_one_image(rt: HostRuntime) -> Result<(), Fail> {
    let mut image = Image::new(rt.alloc(), 16)?;
    image.cell::<i32>(3).set(-2);
    assert_eq!(rt; read_by_two(&rt, &image), (Some(-2), Some(-2)));
    Ok(())
}
