//! What a row has of files, and what fails.
use crate::files::{halves, pages_file};
use page_fixtures::files::Files;
use std::alloc::Global;
use std::test::Fail;

/// What a row has of files, and what fails.
#[derive(Drop)]
pub struct Scene {
    pub files: Files,
    pub segment: u32,
    pub opens: Vec<u64>,
    pub lengths: Vec<(u32, u64)>,
    pub reads: Vec<(u32, u64)>,
    pub shorts: Vec<u32>,
    pub cuts: Vec<(u64, u64)>,
}

// Adds what a word says to a scene.
fn add_word(alloc: Global, scene: &mut Scene, word: &str) -> Result<(), Fail> {
    let (key, number) = halves(word, '=');
    match key {
        "open" => scene.opens.push(number.parse()?)?,
        "length" => scene.lengths.push((0, number.parse()?))?,
        "read" => scene.reads.push((0, number.parse()?))?,
        "short" => scene.shorts.push(number.parse()?)?,
        "out" => scene.cuts.push((number.parse()?, 0))?,
        "segment" => scene.segment = number.parse()?,
        _ => {
            let (name, pages) = halves(word, ':');
            let name = String::from_str(alloc, name)?;
            scene.files.push((name, pages_file(alloc, pages)?))?;
        }
    }
    Ok(())
}

/// The scene that these words say.
pub fn scene_of(alloc: Global, words: &str) -> Result<Scene, Fail> {
    let mut scene = Scene {
        files: Vec::new(alloc),
        segment: 131072,
        opens: Vec::new(alloc),
        lengths: Vec::new(alloc),
        reads: Vec::new(alloc),
        shorts: Vec::new(alloc),
        cuts: Vec::new(alloc),
    };
    for word in words.split_whitespace() {
        add_word(alloc, &mut scene, word)?;
    }
    Ok(scene)
}
