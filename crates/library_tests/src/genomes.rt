// Genomes, written.
use genome::{letters_text, names_text, read_names};
use std::test::Fail;

#[test]
fn a_genome_is_written_in_both_spellings(rt: HostRuntime) -> Result<(), Fail> {
    let alloc = rt.alloc();
    let text = b"# test\ninc\nnop-A  # to AX\n\ninc\r\ninc\r\ninc\r\ninc\r\ninc\r\ninc\r\n";
    let Ok(genome) = read_names(alloc, text) else {
        assert!(rt; false, "the text is refused");
        return Ok(());
    };
    assert_eq!(rt; genome.len(), 8);
    let mut out = b"> ".to_vec(alloc)?;
    assert!(rt; letters_text(&genome, &mut out).is_ok());
    assert!(rt; names_text(&genome, &mut out).is_ok());
    assert_eq!(rt;
        out.as_slice(),
        b"> mammmmmminc\nnop-A\ninc\ninc\ninc\ninc\ninc\ninc\n".as_slice()
    );
    crosses_threads(&genome);
    let copy = genome.copy(alloc).ok();
    assert!(rt; copy == Some(genome), "a copy differs");
    Ok(())
}

fn crosses_threads<T: Send + Sync>(_value: &T) {}
