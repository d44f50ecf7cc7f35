//! The picture of a draw, taken from the tokens of its text.
ghost use Rattle.std.specs.Prelude.{◌≡◌, ◌<◌, codes, cond, length, Some, None, Err, IfOk, OnOk, option_map};
ghost use Rattle.std.specs.Str.{bytes_eq};
ghost use Rattle.serde_json.specs.Data.{Data, Members, object};
ghost use Rattle.fd_json.specs.Taken.{taken, members_taken};
ghost use Rattle.fd_capture.specs.Field.{unsigned_32};
ghost use Rattle.fd_capture.specs.Picture.{bytes_of_data, decoded, picture_of_data};
ghost use Rattle.fd_capture.specs.Streamed.{picture_from, picture_read};

use crate::from_tokens::FromTokens;
use crate::large_members::{Member, if_any};
use crate::scope::Scope;
use base64::DecodeAllocError;
use base64::engine::general_purpose::STANDARD;
use fd_events::Picture;
use fd_json::{Stop, open_object, pass, text};
use json::Reader;
use std::alloc::Global;

/// What the members of a picture stand for, each if it is there and well formed; holes may be missing.
#[derive(Default, Drop)]
struct PictureMembers {
    left: Option<u32>,
    top: Option<u32>,
    width: Option<u32>,
    height: Option<u32>,
    texels: Option<Vec<u8>>,
    holes: Member<Vec<u8>>,
}

/// The next value as a picture, which versions before 3 don't look at.
pub(crate) fn picture(reader: &mut Reader<'_>, scope: Scope) -> Result<Option<Box<Picture>>, Stop>
    ensures ok { IfOk result (λ picture. (d : Data) × (taken scope.depth reader.old ≡ Some (d, reader.new))
        × (option_map (λ p. p.value) picture ≡ picture_read scope.version d)) }
    ensures refused { result ≡ Err Stop.NotJson → taken scope.depth reader.old ≡ None }
    ensures shorter { OnOk result (length reader.new < length reader.old) }
{
    if scope.version != 3 {
        pass(reader, scope.depth)?;
        return Ok(None);
    }
    if !open_object(reader, scope.depth)? {
        return Ok(None);
    }
    picture_members(reader, scope.inner())
}

/// The bytes that a text in base64 stands for, if it is one.
#[tactic(auto, unfolding(crate::specs::Picture::decoded))]
fn decoded(alloc: Global, text: &str) -> Result<Option<Vec<u8>>, Stop>
    ensures ok { IfOk result (λ bytes. option_map (λ v. v.items) bytes ≡ decoded text.now) }
    ensures memory { result ≡ Err Stop.NotJson → ⊥ }
{
    match STANDARD.decode(alloc, text.as_bytes()) {
        Ok(bytes) => Ok(Some(bytes)),
        Err(DecodeAllocError::DecodeError(_)) => Ok(None),
        Err(DecodeAllocError::OutOfMemory) => Err(Stop::Memory),
    }
}

/// The next value as the bytes that it stands for in base64.
fn bytes(reader: &mut Reader<'_>, scope: Scope) -> Result<Option<Vec<u8>>, Stop>
    ensures ok { IfOk result (λ bytes. (d : Data) × (taken scope.depth reader.old ≡ Some (d, reader.new))
        × (option_map (λ v. v.items) bytes ≡ bytes_of_data d)) }
    ensures refused { result ≡ Err Stop.NotJson → taken scope.depth reader.old ≡ None }
    ensures shorter { OnOk result (length reader.new < length reader.old) }
{
    let found = text(reader, scope.depth)?;
    match found {
        Some(text) => decoded(scope.alloc, text),
        None => Ok(None),
    }
}

/// The picture of these members.
fn picture_from(members: PictureMembers) -> Option<Picture>
    ensures { result ≡ picture_from members.left members.top members.width members.height (option_map (λ v. v.items) members.texels)
        (option_map (option_map (λ v. v.items)) members.holes) }
{
    let PictureMembers {
        left,
        top,
        width,
        height,
        texels,
        holes,
    } = members;
    let left = left?;
    let top = top?;
    let width = width?;
    let height = height?;
    let texels = texels?;
    let holes = if_any(holes)?;
    Picture::new(left, top, width, height, texels, holes).ok()
}

/// The same behind a pointer.
fn boxed(alloc: Global, picture: Option<Picture>) -> Result<Option<Box<Picture>>, Stop>
    ensures ok { IfOk result (λ pointer. option_map (λ p. p.value) pointer ≡ picture) }
    ensures memory { result ≡ Err Stop.NotJson → ⊥ }
{
    match picture {
        Some(picture) => Ok(Some(Box::new(alloc, picture)?)),
        None => Ok(None),
    }
}

/// The next value is the member of this name, and goes in among the others if a picture has one.
fn picture_member(
    reader: &mut Reader<'_>,
    scope: Scope,
    name: &str,
    members: &mut PictureMembers,
) -> Result<(), Stop>
    ensures ok { OnOk result ((d : Data) × (taken scope.depth reader.old ≡ Some (d, reader.new))
        × (members.new.left ≡ cond (bytes_eq name.now (codes "left")) (unsigned_32 d) members.old.left)
        × (members.new.top ≡ cond (bytes_eq name.now (codes "top")) (unsigned_32 d) members.old.top)
        × (members.new.width ≡ cond (bytes_eq name.now (codes "width")) (unsigned_32 d) members.old.width)
        × (members.new.height ≡ cond (bytes_eq name.now (codes "height")) (unsigned_32 d) members.old.height)
        × (option_map (λ v. v.items) members.new.texels
        ≡ cond (bytes_eq name.now (codes "texels")) (bytes_of_data d) (option_map (λ v. v.items) members.old.texels))
        × (option_map (option_map (λ v. v.items)) members.new.holes
        ≡ cond (bytes_eq name.now (codes "holes")) (Some (bytes_of_data d)) (option_map (option_map (λ v. v.items)) members.old.holes))) }
    ensures refused { result ≡ Err Stop.NotJson → taken scope.depth reader.old ≡ None }
    ensures shorter { OnOk result (length reader.new < length reader.old) }
{
    match name {
        "left" => members.left = u32::next(reader, scope)?,
        "top" => members.top = u32::next(reader, scope)?,
        "width" => members.width = u32::next(reader, scope)?,
        "height" => members.height = u32::next(reader, scope)?,
        "texels" => members.texels = bytes(reader, scope)?,
        "holes" => members.holes = Some(bytes(reader, scope)?),
        _ => pass(reader, scope.depth)?,
    }
    Ok(())
}

/// The members of a picture whose brace was taken, up to the brace that closes it.
fn picture_members(reader: &mut Reader<'_>, scope: Scope) -> Result<Option<Box<Picture>>, Stop>
    ensures ok { IfOk result (λ picture. (found : Members) × (members_taken scope.depth reader.old ≡ Some (found, reader.new))
        × (option_map (λ p. p.value) picture ≡ picture_of_data (object found))) }
    ensures refused { result ≡ Err Stop.NotJson → members_taken scope.depth reader.old ≡ None }
    ensures shorter { OnOk result (length reader.new < length reader.old) }
{
    let mut members = PictureMembers::default();
    'members: while let Some(name) = reader.next_key()? {
        picture_member(reader, scope, name, &mut members)?;
    }
    boxed(scope.alloc, picture_from(members))
}
