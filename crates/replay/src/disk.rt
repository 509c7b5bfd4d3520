// The nine calls that are made on a bare image and on a wrapped file.
use files::FoundFile;
use model::{AllocationBlock, DirectoryEntry, Fork, Refusal, VolumeFacts};

// What the bytes of an image are taken for.
pub trait Disk {
    fn check(&self, image: &[u8]) -> Result<VolumeFacts, Refusal>;

    fn entry(&self, image: &[u8], place: u64) -> Result<DirectoryEntry, Refusal>;

    fn find(&self, image: &[u8], name: &[u8]) -> Result<FoundFile, Refusal>;

    fn block(
        &self,
        image: &[u8],
        name: &[u8],
        fork: Fork,
        place: u64,
    ) -> Result<AllocationBlock, Refusal>;

    fn read(
        &self,
        image: &[u8],
        name: &[u8],
        fork: Fork,
        offset: u64,
        buffer: &mut [u8],
    ) -> Result<usize, Refusal>;

    fn create(
        &self,
        image: &mut [u8],
        name: &[u8],
        finder: &[u8; 16],
        created: u32,
        changed: u32,
    ) -> Result<(), Refusal>;

    fn write(
        &self,
        image: &mut [u8],
        name: &[u8],
        fork: Fork,
        offset: u64,
        bytes: &[u8],
        changed: u32,
    ) -> Result<(), Refusal>;

    fn cut(
        &self,
        image: &mut [u8],
        name: &[u8],
        fork: Fork,
        size: u64,
        changed: u32,
    ) -> Result<(), Refusal>;

    fn delete(&self, image: &mut [u8], name: &[u8]) -> Result<(), Refusal>;
}

// A volume as it stands.
#[derive(Clone, Copy)]
pub struct Bare;

impl Disk for Bare {
    fn check(&self, image: &[u8]) -> Result<VolumeFacts, Refusal> {
        volume::check(image)
    }

    fn entry(&self, image: &[u8], place: u64) -> Result<DirectoryEntry, Refusal> {
        volume::entry(image, place)
    }

    fn find(&self, image: &[u8], name: &[u8]) -> Result<FoundFile, Refusal> {
        volume::find(image, name)
    }

    fn block(
        &self,
        image: &[u8],
        name: &[u8],
        fork: Fork,
        place: u64,
    ) -> Result<AllocationBlock, Refusal> {
        volume::block(image, name, fork, place)
    }

    fn read(
        &self,
        image: &[u8],
        name: &[u8],
        fork: Fork,
        offset: u64,
        buffer: &mut [u8],
    ) -> Result<usize, Refusal> {
        volume::read(image, name, fork, offset, buffer)
    }

    fn create(
        &self,
        image: &mut [u8],
        name: &[u8],
        finder: &[u8; 16],
        created: u32,
        changed: u32,
    ) -> Result<(), Refusal> {
        volume::create(image, name, finder, created, changed)
    }

    fn write(
        &self,
        image: &mut [u8],
        name: &[u8],
        fork: Fork,
        offset: u64,
        bytes: &[u8],
        changed: u32,
    ) -> Result<(), Refusal> {
        volume::write(image, name, fork, offset, bytes, changed)
    }

    fn cut(
        &self,
        image: &mut [u8],
        name: &[u8],
        fork: Fork,
        size: u64,
        changed: u32,
    ) -> Result<(), Refusal> {
        volume::cut(image, name, fork, size, changed)
    }

    fn delete(&self, image: &mut [u8], name: &[u8]) -> Result<(), Refusal> {
        volume::delete(image, name)
    }
}

// A wrapped file.
#[derive(Clone, Copy)]
pub struct Wrapped;

impl Disk for Wrapped {
    fn check(&self, image: &[u8]) -> Result<VolumeFacts, Refusal> {
        wrapped::check(image)
    }

    fn entry(&self, image: &[u8], place: u64) -> Result<DirectoryEntry, Refusal> {
        wrapped::entry(image, place)
    }

    fn find(&self, image: &[u8], name: &[u8]) -> Result<FoundFile, Refusal> {
        wrapped::find(image, name)
    }

    fn block(
        &self,
        image: &[u8],
        name: &[u8],
        fork: Fork,
        place: u64,
    ) -> Result<AllocationBlock, Refusal> {
        wrapped::block(image, name, fork, place)
    }

    fn read(
        &self,
        image: &[u8],
        name: &[u8],
        fork: Fork,
        offset: u64,
        buffer: &mut [u8],
    ) -> Result<usize, Refusal> {
        wrapped::read(image, name, fork, offset, buffer)
    }

    fn create(
        &self,
        image: &mut [u8],
        name: &[u8],
        finder: &[u8; 16],
        created: u32,
        changed: u32,
    ) -> Result<(), Refusal> {
        wrapped::create(image, name, finder, created, changed)
    }

    fn write(
        &self,
        image: &mut [u8],
        name: &[u8],
        fork: Fork,
        offset: u64,
        bytes: &[u8],
        changed: u32,
    ) -> Result<(), Refusal> {
        wrapped::write(image, name, fork, offset, bytes, changed)
    }

    fn cut(
        &self,
        image: &mut [u8],
        name: &[u8],
        fork: Fork,
        size: u64,
        changed: u32,
    ) -> Result<(), Refusal> {
        wrapped::cut(image, name, fork, size, changed)
    }

    fn delete(&self, image: &mut [u8], name: &[u8]) -> Result<(), Refusal> {
        wrapped::delete(image, name)
    }
}
