// What codes the pictures of a session.
use bit_strings::BitBuf;
use buffer_control::Ledger;
use picture_coder::PictureCoder;
use ref_lists::RefStore;
use spec_film::FilmHead;
use spec_words::command::Settings;

/// All that a session keeps beside the pictures of the group that is to be coded.
#[derive(Drop)]
pub(crate) struct Engine {
    pub(crate) settings: Settings,
    pub(crate) head: FilmHead,
    // The level that was completed.
    pub(crate) level: u8,
    pub(crate) coder: PictureCoder,
    pub(crate) store: RefStore,
    pub(crate) ledger: Ledger,
    // IDR pictures so far, and how many units came before the last of them.
    pub(crate) idrs: u32,
    pub(crate) last_idr: u32,
    // How many vectors were compared.
    pub(crate) compared: u64,
    // Where the next group begins: its place in display order, and the frame_num of its reference picture, where that
    // isn't an IDR picture.
    pub(crate) display: u32,
    pub(crate) number: u32,
    // Room for an access unit, and for the payload of one unit that stands around its slices.
    pub(crate) unit: BitBuf,
    pub(crate) payload: BitBuf,
}
