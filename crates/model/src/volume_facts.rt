// The volume information: where its fields stand, what they may hold, and how it is read.
ghost use Rattle.std.specs.Prelude.{◌≡◌, ◌≤◌, length};
ghost use Rattle.model.specs.Facts.{facts_of};

use crate::copying::array_at;
use crate::numbers::{be16_at, be32_at};
use crate::{LogicalBlock, VolumeFacts};

impl VolumeFacts {
    // The volume information is 64 bytes at byte 1024 of the image.
    pub const AT: usize = 1024;

    // Where its fields stand, counted from there. The signature stands first.
    pub const SIGNATURE_AT: usize = 0;

    pub const CREATED_AT: usize = 2;

    pub const BACKUP_AT: usize = 6;

    pub const ATTRIBUTES_AT: usize = 10;

    pub const FILES_AT: usize = 12;

    pub const DIRECTORY_START_AT: usize = 14;

    pub const DIRECTORY_LENGTH_AT: usize = 16;

    pub const ALLOCATION_BLOCKS_AT: usize = 18;

    pub const BLOCK_SIZE_AT: usize = 20;

    pub const CLUMP_SIZE_AT: usize = 24;

    pub const ALLOCATION_START_AT: usize = 28;

    pub const NEXT_NUMBER_AT: usize = 30;

    pub const FREE_BLOCKS_AT: usize = 34;

    // The name's length byte, and the name behind it.
    pub const NAME_LENGTH_AT: usize = 36;

    pub const NAME_AT: usize = 37;

    pub const SIGNATURE: u16 = 0xd2d7;

    // How many logical blocks an image may have.
    pub const LEAST_BLOCKS: usize = 8;

    pub const MOST_BLOCKS: usize = 65_535;

    // Bytes in an allocation block.
    pub const LEAST_BLOCK_SIZE: u32 = 512;

    pub const MOST_BLOCK_SIZE: u32 = 32_768;

    pub const MOST_ALLOCATION_BLOCKS: u16 = 640;

    pub const MOST_DIRECTORY_BLOCKS: u16 = 256;

    // The map of 640 entries ends where logical block 4 starts.
    pub const LEAST_DIRECTORY_START: u32 = 4;

    // Bytes in a volume name, its length byte not counted.
    pub const MOST_NAME: usize = 27;

    // With this for the next file number no file can be created.
    pub const LAST_NUMBER: u32 = 4_294_967_295;

    // The facts as they stand in the image, right or not.
    pub fn read(image: &[u8]) -> VolumeFacts
        requires { 1088 ≤ length image.now }
        ensures { result ≡ facts_of image.now }
    {
        let v = &image[Self::AT..];
        VolumeFacts {
            signature: be16_at(v, Self::SIGNATURE_AT),
            created: be32_at(v, Self::CREATED_AT),
            backup: be32_at(v, Self::BACKUP_AT),
            attributes: be16_at(v, Self::ATTRIBUTES_AT),
            files: be16_at(v, Self::FILES_AT),
            directory_start: LogicalBlock(be16_at(v, Self::DIRECTORY_START_AT) as u32),
            directory_length: be16_at(v, Self::DIRECTORY_LENGTH_AT),
            allocation_blocks: be16_at(v, Self::ALLOCATION_BLOCKS_AT),
            block_size: be32_at(v, Self::BLOCK_SIZE_AT),
            clump_size: be32_at(v, Self::CLUMP_SIZE_AT),
            allocation_start: LogicalBlock(be16_at(v, Self::ALLOCATION_START_AT) as u32),
            next_number: be32_at(v, Self::NEXT_NUMBER_AT),
            free_blocks: be16_at(v, Self::FREE_BLOCKS_AT),
            name_length: v[Self::NAME_LENGTH_AT],
            name: array_at(v, Self::NAME_AT),
        }
    }
}
